ghost use Rattle.std.specs.Prelude.{◌≡◌, ◌∷◌};
ghost use Rattle.hashlink_text.specs.{Lines.parts_of, Cuts.parts_left};

// Returns the part before the first such byte, and the text after that byte if there is one.
pub(crate) fn cut(text: &[u8], byte: u8) -> (&[u8], Option<&[u8]>)
    ensures { parts_of byte text.now ≡ result.0.now ∷ parts_left byte result.1 }
{
    match text.iter().position(|b| *b == byte) {
        Some(at) => (&text[..at], Some(&text[at + 1..])),
        None => (text, None),
    }
}
