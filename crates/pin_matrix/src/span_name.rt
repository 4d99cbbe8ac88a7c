//! The form of a span's name.
ghost use Rattle.std.specs.Prelude.{◌≡◌};
ghost use Rattle.std.specs.List.{list_all};
ghost use Rattle.pin_matrix.specs.Spans as spec;

/// Whether these bytes are a span's name: 1 to 32 letters, digits, `_` or `-` (choice of this profile).
pub fn is_span_name(name: &[u8]) -> bool
    ensures { result ≡ spec.is_span_name name.now }
{
    1 <= name.len() && name.len() <= 32 && are_name_bytes(name)
}

fn are_name_bytes(name: &[u8]) -> bool
    ensures { result ≡ list_all (λ b. spec.is_name_byte b) name.now }
{
    name.iter().all(|byte| is_name_byte(*byte))
}

fn is_name_byte(byte: u8) -> bool
    ensures { result ≡ spec.is_name_byte byte }
{
    byte.is_ascii_alphanumeric() || byte == b'_' || byte == b'-'
}
