// The eight bytes that end a trace.
ghost use Rattle.std.specs.Prelude.{◌≡◌, ◌+◌, ◌-◌, ◌%◌, ◌≤◌, ◌&&◌, nat_le, length, drop, IfSome};
ghost use Rattle.trace.specs.Traces.{lawful, trailer_of};
ghost use Rattle.trace.specs.Writing.{trailer_bytes};

use crate::record::RECORD_SIZE;

/// The bytes of a trailer.
pub const TRAILER_SIZE: usize = 8;

/// The most records of a trace.
pub const MOST_RECORDS: usize = 1_048_576;

/// The one version of the format.
pub const VERSION: u8 = 1;

/// The trailer of a trace.
#[derive(Clone, Copy)]
pub struct Trailer {
    /// The bytes that the records take.
    pub size: u32,
    /// The processors that the trace is for.
    pub processors: u8,
}

// A trace is for 1 to 8 processors.
pub(crate) fn may_serve(processors: u8) -> bool
    ensures { result ≡ (nat_le 1 processors && nat_le processors 8) }
{
    (1..=8).contains(&processors)
}

impl Trailer {
    // Whether it is one for a trace with `room` bytes before it.
    fn is_lawful(self, room: usize) -> bool
        ensures { result ≡ lawful room self }
    {
        let size = self.size as usize;
        size % RECORD_SIZE == 0
            && size <= RECORD_SIZE * MOST_RECORDS
            && size <= room
            && may_serve(self.processors)
    }

    // Functions and no conversions, as `encode` and `decode` of a record.
    /// The trailer in the last 8 bytes, if they are one: size (4, lowest byte first), version,
    /// processors, two zero bytes.
    pub(crate) fn decode(bytes: &[u8]) -> Option<Trailer>
        ensures value { result ≡ trailer_of bytes.now }
        ensures back { IfSome result (λ t.
            trailer_bytes t.size t.processors ≡ drop (length bytes.now - 8) bytes.now) }
        ensures held { IfSome result (λ t. t.size + 8 ≤ length bytes.now) }
        ensures few { IfSome result (λ t. t.size ≤ 16777216) }
        ensures whole { IfSome result (λ t. t.size % 16 ≡ 0) }
        ensures served { IfSome result (λ t. (1 ≤ t.processors) × (t.processors ≤ 8)) }
    {
        let (front, last) = bytes.split_last_chunk::<TRAILER_SIZE>()?;
        let &[s0, s1, s2, s3, VERSION, processors, 0, 0] = last else {
            return None;
        };
        let size = u32::from_le_bytes([s0, s1, s2, s3]);
        let trailer = Trailer { size, processors };
        trailer.is_lawful(front.len()).then_some(trailer)
    }

    /// The 8 bytes of the trailer.
    pub(crate) fn encode(self) -> [u8; 8]
        ensures { result ≡ trailer_bytes self.size self.processors }
    {
        let [s0, s1, s2, s3] = self.size.to_le_bytes();
        [s0, s1, s2, s3, VERSION, self.processors, 0, 0]
    }
}
