ghost use Rattle.machine_theory.specs.Tags.{choose_tag, is_excluded, next_allowed};
ghost use Rattle.std.specs.Prelude.{◌≡◌, ◌+◌, ◌%◌, ◌<◌, IsFalse, IsTrue, ℕ};

/// A chosen tag is never an excluded one, unless all sixteen are excluded; then it is 0.
#[tactic(auto, using(crate::proofs::TagLaws::choose_tag_allowed, crate::proofs::TagLaws::choose_tag_none))]
pub fn law_choose_tag()
    ensures allowed { (tag offset exclude other : ℕ) → tag < 16 → other < 16 → IsFalse (is_excluded exclude other) →
        IsFalse (is_excluded exclude (choose_tag tag offset exclude)) }
    ensures below { (tag offset exclude other : ℕ) → tag < 16 → other < 16 → IsFalse (is_excluded exclude other) →
        choose_tag tag offset exclude < 16 }
    ensures none { (tag offset exclude : ℕ) → ((other : ℕ) → other < 16 → IsTrue (is_excluded exclude other)) →
        choose_tag tag offset exclude ≡ 0 }
{}

/// Steps from tag to tag, each one up modulo 16 and then on while the tag is excluded, choose the same tag, as in the Arm ARM's
/// ChooseNonExcludedTag.
#[tactic(auto, using(crate::proofs::StepLaws::steps))]
pub fn law_steps()
    // a step goes to the next allowed tag
    ensures here { (tag exclude : ℕ) → IsFalse (is_excluded exclude ((tag + 1) % 16)) →
        next_allowed exclude tag ≡ (tag + 1) % 16 }
    ensures on { (tag exclude : ℕ) → IsTrue (is_excluded exclude ((tag + 1) % 16)) →
        next_allowed exclude tag ≡ next_allowed exclude ((tag + 1) % 16) }

    // no step, unless the tag is excluded
    ensures zero_free { (tag exclude : ℕ) → tag < 16 → IsFalse (is_excluded exclude tag)
        → choose_tag tag 0 exclude ≡ tag }
    ensures zero_excluded { (tag exclude : ℕ) → IsTrue (is_excluded exclude tag) →
        choose_tag tag 0 exclude ≡ next_allowed exclude tag }

    // as many steps as the offset says
    ensures one { (tag exclude : ℕ) → choose_tag tag 1 exclude ≡ next_allowed exclude tag }
    ensures more { (tag offset exclude other : ℕ) → tag < 16 → other < 16 → IsFalse (is_excluded exclude other) →
        choose_tag tag (offset + 2) exclude ≡ next_allowed exclude (choose_tag tag (offset + 1) exclude) }
{}
