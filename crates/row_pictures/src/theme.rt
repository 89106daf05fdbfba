//! The colours of pictures.

ghost use Rattle.std.specs.Prelude.{◌≡◌, is_some};
ghost use Rattle.row_pictures.specs.Themes.{is_theme, rgb_of, theme_named, theme_of as theme_of_colors};
ghost use Rattle.row_pictures.specs.Themes.{xterm_theme};

use picture_page::Rgb;

/// The colours of texts and backgrounds by default, and the first sixteen.
#[derive(Clone, Copy)]
pub struct Theme {
    /// The colour of texts by default.
    pub fgcolor: Rgb,
    /// The colour of backgrounds by default.
    pub bgcolor: Rgb,
    /// The first sixteen colours.
    pub colors: [Rgb; 16],
    /// Whether bold texts in the first eight have the bright ones, where nothing else is said.
    pub bold_is_bright: bool,
}

impl Theme {
    /// What xterm shows with light texts on black, and bold ones bright: the theme where none is named.
    pub fn new() -> Self
        ensures { result ≡ xterm_theme }
    {
        Theme {
            bold_is_bright: true,
            ..theme_of(&XTERM)
        }
    }

    /// The theme of these colours, each as 0xRRGGBB: that of texts, that of backgrounds, and the first sixteen. Bold texts
    /// keep theirs.
    pub fn of_colors(colors: &[u32; 18]) -> Self
        ensures { result ≡ theme_of_colors colors.now }
    {
        theme_of(colors)
    }

    /// The theme of this name. Most are those that asciinema's player has under these names.
    #[tactic(auto, unfolding(crate::specs::Themes::theme_named))]
    pub fn of_name(name: &str) -> Option<Self>
        ensures known { is_some result ≡ is_theme name.now }
        ensures named { result ≡ theme_named name.now }
    {
        match name {
            "xterm" => Some(Theme::new()),
            "light" => Some(theme_of(&LIGHT)),
            "asciinema" => Some(theme_of(&ASCIINEMA)),
            "dracula" => Some(theme_of(&DRACULA)),
            "gruvbox-dark" => Some(theme_of(&GRUVBOX_DARK)),
            "monokai" => Some(theme_of(&MONOKAI)),
            "nord" => Some(theme_of(&NORD)),
            "solarized-dark" => Some(theme_of(&SOLARIZED_DARK)),
            "solarized-light" => Some(theme_of(&SOLARIZED_LIGHT)),
            "tango" => Some(theme_of(&TANGO)),
            _ => None,
        }
    }
}

// The theme of these colours: that of texts, that of backgrounds, and the first sixteen, each as 0xRRGGBB. Bold texts
// keep theirs.
fn theme_of(colors: &[u32; 18]) -> Theme
    ensures { result ≡ theme_of_colors colors.now }
{
    let mut first = [rgb(0); 16];
    for i in 0..16 {
        first[i] = rgb(colors[i + 2]);
    }
    Theme {
        fgcolor: rgb(colors[0]),
        bgcolor: rgb(colors[1]),
        colors: first,
        bold_is_bright: false,
    }
}

// Red, green and blue of 0xRRGGBB.
fn rgb(color: u32) -> Rgb
    ensures { result ≡ rgb_of color }
{
    Rgb {
        red: (color / 0x10000 % 0x100) as u8,
        green: (color / 0x100 % 0x100) as u8,
        blue: (color % 0x100) as u8,
    }
}

const XTERM: [u32; 18] = [
    0xe5e5e5, 0x000000, 0x000000, 0xcd0000, 0x00cd00, 0xcdcd00, 0x0000ee, 0xcd00cd, 0x00cdcd,
    0xe5e5e5, 0x7f7f7f, 0xff0000, 0x00ff00, 0xffff00, 0x5c5cff, 0xff00ff, 0x00ffff, 0xffffff,
];

const LIGHT: [u32; 18] = [
    0x24292f, 0xffffff, 0x24292f, 0xcf222e, 0x116329, 0x4d2d00, 0x0969da, 0x8250df, 0x1b7c83,
    0x6e7781, 0x57606a, 0xa40e26, 0x1a7f37, 0x633c01, 0x218bff, 0xa475f9, 0x3192aa, 0x8c959f,
];

const ASCIINEMA: [u32; 18] = [
    0xcccccc, 0x121314, 0x000000, 0xdd3c69, 0x4ebf22, 0xddaf3c, 0x26b0d7, 0xb954e1, 0x54e1b9,
    0xd9d9d9, 0x4d4d4d, 0xdd3c69, 0x4ebf22, 0xddaf3c, 0x26b0d7, 0xb954e1, 0x54e1b9, 0xffffff,
];

const DRACULA: [u32; 18] = [
    0xf8f8f2, 0x282a36, 0x21222c, 0xff5555, 0x50fa7b, 0xf1fa8c, 0xbd93f9, 0xff79c6, 0x8be9fd,
    0xf8f8f2, 0x6272a4, 0xff6e6e, 0x69ff94, 0xffffa5, 0xd6acff, 0xff92df, 0xa4ffff, 0xffffff,
];

const GRUVBOX_DARK: [u32; 18] = [
    0xfbf1c7, 0x282828, 0x282828, 0xcc241d, 0x98971a, 0xd79921, 0x458588, 0xb16286, 0x689d6a,
    0xa89984, 0x7c6f65, 0xfb4934, 0xb8bb26, 0xfabd2f, 0x83a598, 0xd3869b, 0x8ec07c, 0xfbf1c7,
];

const MONOKAI: [u32; 18] = [
    0xf8f8f2, 0x272822, 0x272822, 0xf92672, 0xa6e22e, 0xf4bf75, 0x66d9ef, 0xae81ff, 0xa1efe4,
    0xf8f8f2, 0x75715e, 0xf92672, 0xa6e22e, 0xf4bf75, 0x66d9ef, 0xae81ff, 0xa1efe4, 0xf9f8f5,
];

const NORD: [u32; 18] = [
    0xeceff4, 0x2e3440, 0x3b4252, 0xbf616a, 0xa3be8c, 0xebcb8b, 0x81a1c1, 0xb48ead, 0x88c0d0,
    0xeceff4, 0x4c566a, 0xbf616a, 0xa3be8c, 0xebcb8b, 0x81a1c1, 0xb48ead, 0x8fbcbb, 0xeceff4,
];

// The bright black of asciinema's player is this theme's background, so texts in it can't be seen.
const SOLARIZED_DARK: [u32; 18] = [
    0x839496, 0x002b36, 0x073642, 0xdc322f, 0x859900, 0xb58900, 0x268bd2, 0xd33682, 0x2aa198,
    0xeee8d5, 0x475b62, 0xcb4b16, 0x586e75, 0x657b83, 0x839496, 0x6c71c4, 0x93a1a1, 0xfdf6e3,
];

const SOLARIZED_LIGHT: [u32; 18] = [
    0x657b83, 0xfdf6e3, 0x073642, 0xdc322f, 0x859900, 0xb58900, 0x268bd2, 0xd33682, 0x2aa198,
    0xeee8d5, 0x002b36, 0xcb4b16, 0x586e75, 0x657b83, 0x839496, 0x6c71c4, 0x93a1a1, 0xfdf6e3,
];

const TANGO: [u32; 18] = [
    0xcccccc, 0x121314, 0x000000, 0xcc0000, 0x4e9a06, 0xc4a000, 0x3465a4, 0x75507b, 0x06989a,
    0xd3d7cf, 0x555753, 0xef2929, 0x8ae234, 0xfce94f, 0x729fcf, 0xad7fa8, 0x34e2e2, 0xeeeeec,
];
