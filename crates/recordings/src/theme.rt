//! The colours that a recording has of its own.

ghost use Rattle.std.specs.Prelude.{◌≡◌, ◌≤◌, ◌∷◌, length, Some, None, if◌then◌else◌};
ghost use Rattle.std.specs.Char.{is_digit};
ghost use Rattle.std.specs.List.{list_all};
ghost use Rattle.std.specs.Str.Parse.{digits_value};
ghost use Rattle.std.specs.Option.{option_map};
ghost use Rattle.serde_json.specs.View.{view};
ghost use Rattle.recordings.specs.Themes.{color_in as color_of, palette_in as palette_of, text_at as text_of};
ghost use Rattle.recordings.specs.Themes.{theme_in as theme_in_data, theme_of as theme_of_data, theme_reported};

use serde_json::Value;

/// Colours, each as 0xRRGGBB: that of texts, that of backgrounds, and the first sixteen.
#[derive(Clone, Copy)]
pub struct RecordedTheme {
    /// The colours.
    pub colors: [u32; 18],
}

/// The theme in the header of an asciicast, if it has one: version 3 has it in `term`. A palette of eight colours has
/// no other bright ones.
pub(crate) fn theme_in(header: &Value) -> Option<RecordedTheme>
    ensures { theme_reported result ≡ theme_in_data (view header.now) }
{
    match header.get("theme") {
        Some(theme) => theme_of(theme),
        None => theme_of(header.get("term")?.get("theme")?),
    }
}

fn theme_of(theme: &Value) -> Option<RecordedTheme>
    ensures { theme_reported result ≡ theme_of_data (view theme.now) }
{
    let mut colors = palette_in(text_at(theme, "palette")?)?;
    colors[0] = color_in(text_at(theme, "fg")?)?;
    colors[1] = color_in(text_at(theme, "bg")?)?;
    Some(RecordedTheme { colors })
}

/// The text that an object has under this name, if it has one.
pub(crate) fn text_at<'a>(object: &'a Value, name: &str) -> Option<&'a str>
    ensures { option_map (λ text. text.now) result ≡ text_of name.now (view object.now) }
{
    object.get(name)?.as_str()
}

// The first sixteen colours, after two others.
fn palette_in(palette: &str) -> Option<[u32; 18]>
    ensures { result ≡ option_map (λ colors. 0 ∷ 0 ∷ colors) (palette_of palette.now) }
{
    let mut colors = [0; 18];
    let mut end = 2;
    for word in palette.split(':') {
        if end < 18 {
            colors[end] = color_in(word)?;
            end += 1;
        }
    }
    match end {
        18 => Some(colors),
        10 => {
            colors.copy_within(2..10, 10);
            Some(colors)
        }
        _ => None,
    }
}

// Reads `#RRGGBB`.
fn color_in(word: &str) -> Option<u32>
    ensures { result ≡ color_of word.now }
{
    match word.as_bytes() {
        [b'#', digits @ ..] if digits.len() == 6 => digits_in(digits),
        _ => None,
    }
}

// Reads digits of base 16, of which there are few enough.
fn digits_in(digits: &[u8]) -> Option<u32>
    requires { length digits.now ≤ 6 }
    ensures { result ≡ (if list_all (λ b. is_digit b 16) digits.now then Some (digits_value 16 digits.now) else None) }
{
    let mut color = 0;
    for digit in digits {
        let value = char::from(*digit).to_digit(16)?;
        color = color * 16 + value;
    }
    Some(color)
}
