//! The name of a table or a key, as it is told.
ghost use Rattle.std.specs.Prelude.{◌≡◌, ◌≤◌, length, map, take};
ghost use Rattle.ng_motion.specs.Name.{shown_byte, shown_name, told};

/// How many bytes of a name are told.
const LONGEST: usize = 64;

/// The beginning of a name, as it is told.
#[derive(Clone, Copy, Debug, PartialEq, Eq)]
pub struct KeyName {
    bytes: [u8; 64],
    length: usize,
}

/// What is told of a byte.
fn shown(byte: u8) -> u8
    ensures { result ≡ shown_byte byte }
{
    if byte >= b' ' && byte <= b'~' {
        byte
    } else {
        b'?'
    }
}

/// Stores what is told of a name, as far as it fits. Returns how many bytes that are.
fn store(name: &[u8], buffer: &mut [u8]) -> usize
    ensures stored { take result buffer.new ≡ map shown_byte (take (length buffer.old) name.now) }
{
    let mut length: usize = 0;
    while length < buffer.len() && length < name.len() {
        buffer[length] = shown(name[length]);
        length += 1;
    }
    length
}

impl KeyName {
    pub(crate) fn of(name: &[u8]) -> KeyName
        ensures { told result ≡ shown_name name.now }
    {
        let mut bytes = [0u8; LONGEST];
        let length = store(name, &mut bytes);
        KeyName { bytes, length }
    }

    /// The first 64 bytes of the name, with a question mark for each that isn't a printed character of ASCII.
    pub fn as_slice(&self) -> &[u8]
        ensures { result.now ≡ told self.now }
    {
        if self.length < LONGEST {
            &self.bytes[..self.length]
        } else {
            &self.bytes
        }
    }
}
