// What is proved of every list of tokens, in words, on the contract of the function that says so.
ghost use Rattle.grammar.specs.Claim.{Unambiguous, ReadDerives, DerivedGood};
ghost use Rattle.grammar.specs.Rewriting.{CoreLaw};

use std::io;

/// The sentences that the program prints. What they say stands in the contract.
pub fn promises() -> [&'static str; 4]
    ensures unambiguous { Unambiguous }
    ensures exact { ReadDerives }
    ensures good { DerivedGood }
    ensures core { CoreLaw }
{
    grammar::unambiguous();
    grammar::reader_is_exact();
    grammar::derived_is_good();
    grammar::core_form_law();
    [
        "No list of tokens reads in two ways.",
        "A reader that computes accepts exactly the lists that the grammar derives, and gives the derived tree.",
        "Writing what was derived gives its tokens back.",
        "The core form of a tree is what its rules come to, and nothing changes it any more.",
    ]
}

pub fn show_promises(rt: &HostRuntime) -> io::Result<()> {
    println!(rt; "7. What is proved of every list of tokens:")?;
    for sentence in promises() {
        println!(rt; "   {sentence}")?;
    }
    Ok(())
}
