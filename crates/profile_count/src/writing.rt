//! The text of a profile.
ghost use Rattle.std.specs.Prelude.{◌≡◌, [], ◌∷◌, ◌++◌, OnOk, OnErr};
ghost use Rattle.class_table.specs.NamedLines.{named_line};
ghost use Rattle.line_text.specs.Lines.{ended, text_of};
ghost use Rattle.line_text.specs.Prefixes.{IsPrefix};
ghost use Rattle.profile_count.specs.ProfileText.{large_lines, profile_text, size_lines};
ghost use Rattle.tuner_theory.specs.Profiles.{IsProfile};

use crate::entry::LARGE;
use crate::profile::Profile;
use class_table::LARGEST_COUNTED;
use itoa::Buffer;
use std::alloc::AllocError;

impl Profile {
    /// Appends the text of the profile: a line `SIZE COUNT` for each counted size, ascending, then a line `large COUNT` if large requests
    /// were counted. Each line has its newline. If memory runs out, `text` is unchanged.
    pub fn write(&self, text: &mut Vec<u8>) -> Result<(), AllocError>
        ensures written { OnOk result (text.new.items ≡ text.old.items ++ profile_text self.now) }
        ensures refused { OnErr result (text.new.items ≡ text.old.items) }
        ensures profile { IsProfile self.now }
    {
        let before = text.len();
        let written = append_profile(text, self);
        if written.is_err() {
            text.truncate(before);
        }
        written
    }
}

fn append_profile(text: &mut Vec<u8>, profile: &Profile) -> Result<(), AllocError>
    ensures written { OnOk result (text.new.items ≡ text.old.items ++ profile_text profile.now) }
    ensures kept { IsPrefix text.old.items text.new.items }
    ensures profile { IsProfile profile.now }
{
    let large = profile.large();
    append_sizes(text, profile)?;
    append_large(text, large)
}

// appends a line for each counted size
fn append_sizes(text: &mut Vec<u8>, profile: &Profile) -> Result<(), AllocError>
    requires { IsProfile profile.now }
    ensures written { OnOk result (text.new.items ≡ text.old.items ++ text_of (size_lines 0 profile.now.counts)) }
    ensures kept { IsPrefix text.old.items text.new.items }
{
    let mut buffer = Buffer::new();
    for size in 0..=LARGEST_COUNTED {
        let count = profile.count(size);
        if count > 0 {
            append_line(text, buffer.format(size).as_bytes(), count)?;
        }
    }
    Ok(())
}

// appends the line of the large requests, if there were any
fn append_large(text: &mut Vec<u8>, count: u32) -> Result<(), AllocError>
    ensures written { OnOk result (text.new.items ≡ text.old.items ++ text_of (large_lines count)) }
    ensures kept { IsPrefix text.old.items text.new.items }
{
    if count == 0 {
        return Ok(());
    }
    append_line(text, LARGE, count)
}

// appends the line of a word and a count
fn append_line(text: &mut Vec<u8>, word: &[u8], count: u32) -> Result<(), AllocError>
    ensures written { OnOk result (text.new.items ≡ text.old.items ++ ended (named_line word.now (count ∷ []))) }
    ensures kept { IsPrefix text.old.items text.new.items }
{
    let mut buffer = Buffer::new();
    text.extend_from_slice(word)?;
    text.push(b' ')?;
    text.extend_from_slice(buffer.format(count).as_bytes())?;
    text.push(b'\n')?;
    Ok(())
}
