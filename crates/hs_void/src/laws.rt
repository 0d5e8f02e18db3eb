//! Laws of what is void by rows.

ghost use Rattle.hs_types.specs.Interned.{InternerData, Grows};
ghost use Rattle.hs_void.specs.Voids.{VoidsData, Fits};

/// Rows and what is remembered of them fit numbers of which there come more. Does nothing.
pub fn what_fits_stays()
    ensures { (I J : InternerData) (v : VoidsData) → Grows I J → Fits I v → Fits J v }
{}
