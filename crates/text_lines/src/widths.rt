//! How wide bytes are.
ghost use Rattle.std.specs.Prelude.{◌≡◌, ◌≤◌, ◌*◌, length};
ghost use Rattle.text_lines.specs.Widths.{byte_width, bytes_width, fits};

/// The widths of all 256 bytes in pixels, as a font has them.
pub type ByteWidths = [u8; 256];

/// How wide a byte is, in pixels.
pub fn byte_width(widths: &ByteWidths, byte: u8) -> u32
    ensures value { result ≡ byte_width widths.now byte }
    ensures small { result ≤ 255 }
{
    u32::from(widths[usize::from(byte)])
}

/// How wide at most 65535 bytes are together, in pixels.
pub fn bytes_width(widths: &ByteWidths, bytes: &[u8]) -> u32
    requires { length bytes.now ≤ 65535 }
    ensures value { result ≡ bytes_width widths.now bytes.now }
    ensures small { result ≤ 255 * length bytes.now }
{
    let mut wide = 0;
    for byte in bytes {
        wide += byte_width(widths, *byte);
    }
    wide
}

/// Whether bytes that are so wide together have room in a line.
pub(crate) fn fits(room: Option<u16>, wide: u32) -> bool
    ensures { result ≡ fits room wide }
{
    match room {
        None => true,
        Some(room) => wide <= u32::from(room),
    }
}
