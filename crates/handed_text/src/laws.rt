//! The ends that C is told of. The law is the contract of a function that does nothing.
ghost use Rattle.std.specs.Prelude.{◌≡◌};
ghost use Rattle.handed_text.specs.declared.ends.TheConstants.{BAD_OPTION, DONE, MISUSE, NO, OUT_OF_MEMORY, REFUSED};

/// The number of each end. All contracts take them from the constants; here each stands as a number.
pub fn law_ends()
    ensures answered { (DONE ≡ 0) × (NO ≡ 1) }
    ensures unanswered { (REFUSED ≡ 2) × (OUT_OF_MEMORY ≡ 3) × (BAD_OPTION ≡ 4) × (MISUSE ≡ 5) }
{}
