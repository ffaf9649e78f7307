//! Laws, each the contract of a function that does nothing.
ghost use Rattle.std.specs.Prelude.{◌≡◌, ◌++◌, ◌∷◌, [], codes};
ghost use Rattle.streams.specs.declared.lines.TheConstants.{MAX_LINE_LEN};
ghost use Rattle.streams.specs.declared.serving.TheConstants.{MAX_LINES};
ghost use Rattle.gix_date_tool.specs.declared.program.TheConstants.{USAGE};
ghost use Rattle.gix_date.specs as GixDate;

/// The limits are the numbers that the texts of the faults name, and the usage line is this text.
pub fn limits()
    ensures of_a_line { MAX_LINE_LEN ≡ 65_536 }
    ensures of_an_input { MAX_LINES ≡ 1_000_000 }
    ensures usage { USAGE.now ≡ codes "usage: gix_date_tool MODE [NOW]" ++ GixDate.newline ∷ [] }
{}
