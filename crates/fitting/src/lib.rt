// What a tree is, as far as the place where it stands can ask, and whether the children of a record may stand where
// they stand.
// A form stands before its children in all parameters, and these are no methods of `Summary`: so other crates call
// `traits_of` and `children_fit`, and what those stand on follows them.

#![tactic(auto)]

mod derived;
mod fits;
mod site;
mod summary;
mod traits;

pub use derived::traits_of;
pub use fits::children_fit;
pub use site::Site;
pub use summary::{Declared, Summary};
pub use traits::{Begin, Traits};
