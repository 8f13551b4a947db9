// The check of text by itself, for a name that stands in no frame yet.

ghost use Rattle.std.specs.Prelude.{◌≡◌};
ghost use Rattle.utf8.specs.Utf8.{utf8};

pub fn sheafsledge_is_utf8(bytes: &[u8]) -> bool
    ensures { result ≡ utf8 bytes.now }
{
    utf8::is_utf8(bytes)
}
