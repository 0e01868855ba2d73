// The two passes over the tokens: the first decides and counts, the second puts up what the first has found.

ghost use Rattle.std.specs.Prelude.{ℕ, ◌≤◌, List, MatchResult};
ghost use Rattle.grammar.specs.Tree.{Tree, depth};
ghost use Rattle.grammar.specs.Claim.{Reads};
ghost use Rattle.reader.specs.Width.{NotScript};
ghost use Rattle.recognizer.specs.Width.{Recognized};
ghost use Rattle.recognizer.specs.Passes.{Built, Ready, LoadedAt};

use crate::tree::script;
use reader::Unread;
use reader::sink::Nothing;
use records::{Mark, Store, stamp};
use token::Token;

/// How many records the tree has that the tokens derive.
// A u64: it is to be the value of a refusal, which will be 64 bits wide.
pub fn recognize(tokens: &[Token]) -> Result<u64, Unread>
    ensures { MatchResult result (λ n. Recognized tokens.now n) (λ e. NotScript tokens.now e) }
{
    let found = script(tokens, &mut Nothing)?;
    Ok(found.below.records as u64 + 1)
}

/// Puts up the tree that the tokens derive, from free records, and answers the slot of its root. Nothing is promised where
/// the tokens were not recognized.
pub fn build(tokens: &[Token], store: &mut Store) -> u16
    ensures { (t : Tree) → Reads tokens.now t → depth t ≤ 512 → Built store.old store.new result t }
{
    // 0 and no Option, as it always could not fail: nothing is asked of the caller, and nothing promised without a script.
    match script(tokens, store) {
        Ok(found) => found.slot,
        Err(_) => 0,
    }
}

/// Puts up the tree that the tokens derive, and marks its root as that of a loaded tree. Whoever calls it has recognized the
/// tokens, and knows that records enough are free.
pub fn load(tokens: &[Token], store: &mut Store) -> u16
    requires { ∥ ((t : Tree) × (ks : List ℕ) × Ready tokens.now store.old t ks) ∥₁ }
    ensures { (t : Tree) → Reads tokens.now t → depth t ≤ 512 → LoadedAt store.old store.new result t }
{
    let root = build(tokens, store);
    stamp(store.slots, root, Mark::Loaded);
    root
}
