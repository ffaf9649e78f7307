//! A law: the contract of a function that does nothing.
ghost use Rattle.std.specs.Prelude.{◌≡◌};
ghost use Rattle.git_ident_tool.specs.declared.judging.TheConstants.{MAX_OBJECTS};

/// The limit is the number that the text of the fault names.
pub fn limits()
    ensures { MAX_OBJECTS ≡ 18_446_744_073_709_551_615 }
{}
