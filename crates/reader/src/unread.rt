// Why nothing is read.

ghost use Rattle.std.specs.Prelude.{◌≡◌};
ghost use Rattle.reader.specs.Width.{refused_of};

/// Why nothing was read.
#[derive(Clone, Copy, PartialEq, Eq, Debug)]
pub enum Unread {
    NoDerivation,
    TooDeep,
}

/// Why a list of `len` tokens is refused, when its script is refused so: one of fewer than 500 tokens is never too deep.
// No tree is deeper than its tokens and one more, so 512 would do as well; 500 is what the pool promises its callers.
pub fn refused(len: usize, why: Unread) -> Unread
    ensures { result ≡ refused_of len why }
{
    match why {
        Unread::TooDeep if len >= 500 => Unread::TooDeep,
        _ => Unread::NoDerivation,
    }
}
