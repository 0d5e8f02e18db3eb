//! Laws that join the layers, each the contract of a function that does nothing.

ghost use Rattle.hs_reader.specs.Raw.{File};
ghost use Rattle.hs_reader.specs.Limits.{IsRaw};
ghost use Rattle.hs_resolve.specs.Numbering.{unsorted_of};
ghost use Rattle.hs_resolve.specs.Answer.{IsFaultless};
ghost use Rattle.hs_text.specs.Canonical.{canonical};
ghost use Rattle.hs_app.specs.ReadAgain.{StandsFor};

/// The canonical file of a resolved scheme is a file within the limits, but for those on its size
/// and on its depth, and this file is resolved to the same scheme.
pub fn canonical_file_is_read_again()
    ensures { (raw : File) → IsRaw raw → IsFaultless raw
        → StandsFor (canonical (unsorted_of raw)) (unsorted_of raw) }
{}
