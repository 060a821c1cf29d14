use std::fmt;
use tag_machine::Fault;

/// What the machine answered to an operation.
#[derive(Debug, Clone, Copy)]
pub enum Answer {
    /// A change, and no value.
    Done,
    /// The register Xd or Xt.
    Value(u64),
    /// As many bytes as a load asked for, and bytes that it left as they were.
    Bytes([u8; 64], usize),
    /// The sums of all tags and of all bytes.
    Sums(u32, u32),
    /// Why there was no access, and no change.
    Refused(Fault),
}

impl fmt::Display for Answer {
    fn fmt<W: fmt::Write>(&self, f: &mut fmt::Formatter<W>) -> fmt::Result {
        match self {
            Answer::Done => write!(f, "ok"),
            Answer::Value(x) => write!(f, "ok {x:x}"),
            Answer::Sums(tags, bytes) => write!(f, "ok {tags:x} {bytes:x}"),
            Answer::Refused(Fault::Unmapped) => write!(f, "unmapped"),
            Answer::Refused(Fault::Alignment) => write!(f, "alignment"),
            Answer::Refused(
                Fault::TagCheck {
                    granule,
                    memory_tag,
                    pointer_tag,
                },
            ) => write!(f, "tag {granule:x} {memory_tag:x} {pointer_tag:x}"),
            Answer::Bytes(bytes, length) => {
                write!(f, "ok ")?;
                for byte in bytes.iter().take(*length) {
                    write!(f, "{byte:02x}")?;
                }
                Ok(())
            }
        }
    }
}
