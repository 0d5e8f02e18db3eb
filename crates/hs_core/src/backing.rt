//! What an entry of the log follows from.

ghost use Rattle.std.specs.Prelude.{◌≡◌};

use hs_table::HeadBy;
use smallvec::SmallVec;
use std::marker::Model;

/// So many chosen arguments stand in the support itself; more have a list of their own.
const BESIDE: usize = 2;

/// The support of an entry: where the type of its point's head comes from, and the chosen arguments
/// with their places.
#[derive(Drop)]
pub(crate) struct Backing {
    pub head: HeadBy,
    pub args: SmallVec<(u32, u32), BESIDE>,
}

impl Model for Backing {
    ghost use Rattle.hs_table.specs.Follows.{Support};
    ghost use Rattle.hs_history.specs.Story.{coded_support};

    ghost Value = { Support };

    ghost coded = { coded_support };

    ghost view = { λ a. record { head = a.head; args = a.args.items } };
}

/// The same arguments, without a list of their own where they are few. Takes no memory.
fn beside(args: Vec<(u32, u32)>) -> SmallVec<(u32, u32), BESIDE>
    ensures { result.items ≡ args.items }
{
    if args.len() <= BESIDE
        && let Ok(few) = SmallVec::from_slice(*args.allocator(), args.as_slice())
    {
        return few;
    }
    SmallVec::from_vec(args)
}

impl Backing {
    /// The support with this head and these arguments. Takes no memory.
    pub(crate) fn of(head: HeadBy, args: Vec<(u32, u32)>) -> Backing
        ensures { result ≡ record { head = head; args = args.items } }
    {
        Backing {
            head,
            args: beside(args),
        }
    }
}
