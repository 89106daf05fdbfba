//! The body of a frame: the bytes between its marks.
ghost use Rattle.std.specs.Prelude.{◌≡◌, ◌++◌, OnOk, OnErr, Err, string_bytes};
ghost use Rattle.vt100_forms.specs.Form.{bytes_of};
ghost use Rattle.screen_drawing.specs.Modes.{input_mode_diff};
ghost use Rattle.screen_drawing.specs.Screen.{contents_formatted, state_diff, state_formatted};
ghost use Rattle.vt100_core.specs.Picture.{grid_size};
ghost use Rattle.screen_model.specs.Shown.{shown_state};
ghost use Rattle.vt100.specs.WriterLaws.{IsUnscrolled};
ghost use Rattle.termrelay.specs.declared.error.HubError.TheVariants.{Memory};

use crate::error::HubError;
use vt100::Screen;

/// Appends the bytes that draw the screen on a blank terminal. Fails only if an allocation fails.
pub(crate) fn push_state(text: &mut String, now: &Screen) -> Result<(), HubError>
    requires { IsUnscrolled now.now.state }
    ensures text { OnOk result (string_bytes text.new ≡ string_bytes text.old
        ++ bytes_of (state_formatted (grid_size now.now.state.shown) (shown_state now.now.state))) }
    ensures memory { OnErr result (result ≡ Err Memory) }
{
    now.write_state_formatted(text)?;
    Ok(())
}

/// Appends the bytes that take a terminal from all that `base` shows to all that the screen shows. Fails only if an
/// allocation fails.
pub(crate) fn push_difference(
    text: &mut String,
    base: &Screen,
    now: &Screen,
) -> Result<(), HubError>
    requires base { IsUnscrolled base.now.state }
    requires now { IsUnscrolled now.now.state }
    requires size { grid_size base.now.state.shown ≡ grid_size now.now.state.shown }
    ensures text { OnOk result (string_bytes text.new ≡ string_bytes text.old ++ bytes_of
        (state_diff (grid_size now.now.state.shown) (shown_state base.now.state) (shown_state now.now.state))) }
    ensures memory { OnErr result (result ≡ Err Memory) }
{
    now.write_state_diff(text, base)?;
    Ok(())
}

/// Appends the bytes that draw the screen on a terminal with the modes of `base`. Fails only if an allocation fails.
pub(crate) fn push_redraw(text: &mut String, base: &Screen, now: &Screen) -> Result<(), HubError>
    requires { IsUnscrolled now.now.state }
    ensures text { OnOk result (string_bytes text.new ≡ string_bytes text.old
        ++ (bytes_of (contents_formatted (grid_size now.now.state.shown) (shown_state now.now.state))
        ++ bytes_of (input_mode_diff (shown_state base.now.state) (shown_state now.now.state)))) }
    ensures memory { OnErr result (result ≡ Err Memory) }
{
    text.push_str(&now.contents_formatted()?)?;
    text.push_str(&now.input_mode_diff(base)?)?;
    Ok(())
}
