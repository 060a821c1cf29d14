//! The choice of a tag among those that a mask does not exclude.
ghost use Rattle.machine_theory.specs.Tags.{allowed_after, choose_tag, is_excluded};
ghost use Rattle.std.specs.Prelude.{◌≡◌, ◌+◌, ◌%◌, ◌<◌, map};
ghost use Rattle.tag_machine.specs.MaskBits.{set_bits};

use crate::mask_bits::{count_set_bits, nth_set_bit};

/// Whether the mask excludes the tag.
fn is_excluded(exclude: u16, tag: u8) -> bool
    requires { tag < 16 }
    ensures { result ≡ is_excluded exclude tag }
{
    (exclude >> tag) & 1 == 1
}

/// The allowed tags as a mask. Its bit k stands for the tag k + 1 steps above `tag`.
fn allowed_tags_above(tag: u8, exclude: u16) -> u16
    requires { tag < 16 }
    ensures { allowed_after tag exclude ≡ map (λ k. (tag + (1 + k)) % 16) (set_bits result) }
{
    (!exclude).rotate_right(u32::from(tag) + 1)
}

/// The tag that is `offset` allowed tags after `tag`. For offset 0 it is `tag` itself, or the next allowed tag if `tag` is excluded. If all
/// tags are excluded, it is 0.
pub(crate) fn choose_tag(tag: u8, offset: u8, exclude: u16) -> u8
    requires { tag < 16 }
    ensures chosen { result ≡ choose_tag tag offset exclude }
    ensures below { result < 16 }
{
    let allowed = allowed_tags_above(tag, exclude);
    if allowed == 0 {
        return 0;
    }
    if offset == 0 && !is_excluded(exclude, tag) {
        return tag;
    }
    let skipped = u32::from(offset.saturating_sub(1)) % count_set_bits(allowed);
    (tag + 1 + nth_set_bit(allowed, skipped)) % 16
}
