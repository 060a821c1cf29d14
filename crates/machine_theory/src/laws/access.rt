ghost use Rattle.machine_theory.specs.Access.{IsMapped, IsTagFault, access_fault};
ghost use Rattle.machine_theory.specs.Address.{Touches, logical_tag};
ghost use Rattle.machine_theory.specs.Memory.{Granule, tag_at};
ghost use Rattle.machine_theory.specs.declared.fault.Fault.TheVariants.{TagCheck, Unmapped};
ghost use Rattle.std.specs.Prelude.{◌≡◌, ◌≢◌, ◌↔◌, ◌<◌, IsSome, List, None, Some, length, ℕ};

/// An access is a tag fault exactly if it is mapped and touches a granule whose tag differs from the pointer's. The fault names the lowest
/// such granule.
#[tactic(auto, using(crate::proofs::AccessLaws::access_laws))]
pub fn law_access()
    ensures unmapped { (memory : List Granule) (address len : ℕ) → (IsMapped (length memory) address len → ⊥) →
        access_fault memory address len ≡ Some Unmapped }
    ensures tag { (memory : List Granule) (address len g memory_tag pointer_tag : ℕ) → 0 < len →
        (access_fault memory address len ≡ Some (TagCheck g memory_tag pointer_tag))
        ↔ IsTagFault memory address len g memory_tag pointer_tag }
    ensures faults { (memory : List Granule) (address len g : ℕ) → Touches address len g
        → tag_at memory g ≢ logical_tag address →
        IsSome (access_fault memory address len) }
    ensures succeeds { (memory : List Granule) (address len : ℕ) → 0 < len → IsMapped (length memory) address len →
        ((g : ℕ) → Touches address len g → tag_at memory g ≡ logical_tag address)
        → access_fault memory address len ≡ None }

    // the result of an access depends on the length of the memory and its tags, and on no byte
    ensures by_tags { (memory other : List Granule) (address len : ℕ) → length other ≡ length memory →
        ((g : ℕ) → tag_at other g ≡ tag_at memory g)
        → access_fault other address len ≡ access_fault memory address len }
{}
