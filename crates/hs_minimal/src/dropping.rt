//! Unions of which none is left out.

use hs_choices::{Compared, Dropping};
use hs_scheme::OutOfMemory;
use hs_types::EnvId;

/// Leaves out no environment: void ones count, too.
#[derive(Drop)]
pub(crate) struct NoneDropped;

impl Dropping<Compared> for NoneDropped {
    ghost dropped = { λ d I rule E. ⊥ };

    ghost fits = { λ d I. Unit {0} };

    ghost stays = { λ d e. Unit {0} };

    fn drops(
        &mut self,
        _types: &mut Compared,
        _rule: u32,
        _env: EnvId,
    ) -> Result<bool, OutOfMemory> {
        Ok(false)
    }

    ghost asks_more = { λ d I rule E B asks none. none };

    ghost fits_grown = { λ d I J grows fits. tt };

    ghost dropped_before = { λ d e I J rule E stays grows none. none };

    ghost stays_at_first = { λ d. tt };

    ghost stays_on = { λ d e f first then. tt };
}
