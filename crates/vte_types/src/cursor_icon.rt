//! The shapes of the mouse pointer.
ghost use Rattle.std.specs.Prelude.{◌≡◌, bytes_eq, find};
ghost use Rattle.vte_types.specs.CursorIcon.{name_of, all_icons};

/// A shape of the mouse pointer, named as in CSS's property `cursor`.
#[derive(Clone, Copy, PartialEq, Eq, Debug)]
pub enum CursorIcon {
    /// The keyword `default`.
    Default,
    /// The keyword `context-menu`.
    ContextMenu,
    /// The keyword `help`.
    Help,
    /// The keyword `pointer`.
    Pointer,
    /// The keyword `progress`.
    Progress,
    /// The keyword `wait`.
    Wait,
    /// The keyword `cell`.
    Cell,
    /// The keyword `crosshair`.
    Crosshair,
    /// The keyword `text`.
    Text,
    /// The keyword `vertical-text`.
    VerticalText,
    /// The keyword `alias`.
    Alias,
    /// The keyword `copy`.
    Copy,
    /// The keyword `move`.
    Move,
    /// The keyword `no-drop`.
    NoDrop,
    /// The keyword `not-allowed`.
    NotAllowed,
    /// The keyword `grab`.
    Grab,
    /// The keyword `grabbing`.
    Grabbing,
    /// The keyword `e-resize`.
    EResize,
    /// The keyword `n-resize`.
    NResize,
    /// The keyword `ne-resize`.
    NeResize,
    /// The keyword `nw-resize`.
    NwResize,
    /// The keyword `s-resize`.
    SResize,
    /// The keyword `se-resize`.
    SeResize,
    /// The keyword `sw-resize`.
    SwResize,
    /// The keyword `w-resize`.
    WResize,
    /// The keyword `ew-resize`.
    EwResize,
    /// The keyword `ns-resize`.
    NsResize,
    /// The keyword `nesw-resize`.
    NeswResize,
    /// The keyword `nwse-resize`.
    NwseResize,
    /// The keyword `col-resize`.
    ColResize,
    /// The keyword `row-resize`.
    RowResize,
    /// The keyword `all-scroll`.
    AllScroll,
    /// The keyword `zoom-in`.
    ZoomIn,
    /// The keyword `zoom-out`.
    ZoomOut,
}

/// The pointer's shapes, in the order of their declaration.
const ALL: [CursorIcon; 34] = [
    CursorIcon::Default,
    CursorIcon::ContextMenu,
    CursorIcon::Help,
    CursorIcon::Pointer,
    CursorIcon::Progress,
    CursorIcon::Wait,
    CursorIcon::Cell,
    CursorIcon::Crosshair,
    CursorIcon::Text,
    CursorIcon::VerticalText,
    CursorIcon::Alias,
    CursorIcon::Copy,
    CursorIcon::Move,
    CursorIcon::NoDrop,
    CursorIcon::NotAllowed,
    CursorIcon::Grab,
    CursorIcon::Grabbing,
    CursorIcon::EResize,
    CursorIcon::NResize,
    CursorIcon::NeResize,
    CursorIcon::NwResize,
    CursorIcon::SResize,
    CursorIcon::SeResize,
    CursorIcon::SwResize,
    CursorIcon::WResize,
    CursorIcon::EwResize,
    CursorIcon::NsResize,
    CursorIcon::NeswResize,
    CursorIcon::NwseResize,
    CursorIcon::ColResize,
    CursorIcon::RowResize,
    CursorIcon::AllScroll,
    CursorIcon::ZoomIn,
    CursorIcon::ZoomOut,
];

impl CursorIcon {
    /// The shape's keyword in CSS.
    pub fn name(self) -> &'static str
        ensures { result.now ≡ name_of self }
    {
        match self {
            CursorIcon::Default => "default",
            CursorIcon::ContextMenu => "context-menu",
            CursorIcon::Help => "help",
            CursorIcon::Pointer => "pointer",
            CursorIcon::Progress => "progress",
            CursorIcon::Wait => "wait",
            CursorIcon::Cell => "cell",
            CursorIcon::Crosshair => "crosshair",
            CursorIcon::Text => "text",
            CursorIcon::VerticalText => "vertical-text",
            CursorIcon::Alias => "alias",
            CursorIcon::Copy => "copy",
            CursorIcon::Move => "move",
            CursorIcon::NoDrop => "no-drop",
            CursorIcon::NotAllowed => "not-allowed",
            CursorIcon::Grab => "grab",
            CursorIcon::Grabbing => "grabbing",
            CursorIcon::EResize => "e-resize",
            CursorIcon::NResize => "n-resize",
            CursorIcon::NeResize => "ne-resize",
            CursorIcon::NwResize => "nw-resize",
            CursorIcon::SResize => "s-resize",
            CursorIcon::SeResize => "se-resize",
            CursorIcon::SwResize => "sw-resize",
            CursorIcon::WResize => "w-resize",
            CursorIcon::EwResize => "ew-resize",
            CursorIcon::NsResize => "ns-resize",
            CursorIcon::NeswResize => "nesw-resize",
            CursorIcon::NwseResize => "nwse-resize",
            CursorIcon::ColResize => "col-resize",
            CursorIcon::RowResize => "row-resize",
            CursorIcon::AllScroll => "all-scroll",
            CursorIcon::ZoomIn => "zoom-in",
            CursorIcon::ZoomOut => "zoom-out",
        }
    }

    /// The shape with this keyword, which is compared by case; `None` for other names.
    pub fn from_name(name: &[u8]) -> Option<Self>
        ensures { result ≡ find (λ icon. bytes_eq (name_of icon) name.now) all_icons }
    {
        first_named(&ALL, name)
    }
}

/// The first of these shapes with this keyword.
fn first_named(icons: &[CursorIcon], name: &[u8]) -> Option<CursorIcon>
    ensures { result ≡ find (λ icon. bytes_eq (name_of icon) name.now) icons.now }
{
    for icon in icons {
        if icon.name().as_bytes() == name {
            return Some(*icon);
        }
    }
    None
}
