//! The names that pages give to kinds of bit actions, layers, reasons and verdicts.

ghost use Rattle.std.specs.Prelude.{◌≡◌, ◌++◌, OnOk};
ghost use Rattle.pages.specs.page.Names as spec;

use frames::types::{ActionKind, FrameLayer, Layer, LayerName, Reason};
use frames::verdict::Verdict;
use words::text::{Pushed, push_text};

/// The short name of a kind of bit action, for example `ws` for the start of a write.
pub(super) fn kind_name(kind: ActionKind) -> &'static str
    ensures { result.now ≡ spec.kind_name kind }
{
    match kind {
        ActionKind::WriteStart => "ws",
        ActionKind::WriteEnd => "we",
        ActionKind::ReadStart => "rs",
        ActionKind::ReadEnd => "re",
    }
}

/// Adds the name of a frame's layer. A frame of a matrix is named `matrix` in both phases of an
/// operation.
pub(super) fn push_frame_name(out: &mut Vec<u8>, layer: FrameLayer) -> Pushed
    ensures { OnOk result (out.new.items ≡ out.old.items ++ spec.frame_name layer) }
{
    match layer {
        FrameLayer::Safe => push_text(out, "safe"),
        FrameLayer::Copies => push_text(out, "copies"),
        FrameLayer::Regular => push_text(out, "regular"),
        FrameLayer::Unary => push_text(out, "unary"),
        FrameLayer::Stamped => push_text(out, "stamped"),
        FrameLayer::MatrixRead | FrameLayer::MatrixWrite => push_text(out, "matrix"),
        FrameLayer::Named(name) => push_own_name(out, name),
    }
}

/// Adds the name that a construction gives itself.
fn push_own_name(out: &mut Vec<u8>, name: LayerName) -> Pushed
    ensures { OnOk result (out.new.items ≡ out.old.items ++ spec.name_text name) }
{
    push_name_character(out, name.0)?;
    push_name_character(out, name.1)?;
    push_name_character(out, name.2)
}

/// Adds a character of a construction's name, if it is a letter or a digit.
fn push_name_character(out: &mut Vec<u8>, byte: u8) -> Pushed
    ensures { OnOk result (out.new.items ≡ out.old.items ++ spec.name_character byte) }
{
    if byte.is_ascii_alphanumeric() {
        out.push(byte)?;
    }
    Ok(())
}

/// The name of a layer that refused an operation because the layer's stamps or tags are used up.
pub(super) fn layer_name(layer: Layer) -> &'static str
    ensures { result.now ≡ spec.layer_name layer }
{
    match layer {
        Layer::Stamped => "stamped",
        Layer::Matrix => "matrix",
    }
}

/// The word for the reason why a step wasn't enabled: `busy`, `idle` or `stopped`.
pub(super) fn reason_name(reason: Reason) -> &'static str
    ensures { result.now ≡ spec.reason_name reason }
{
    match reason {
        Reason::Busy => "busy",
        Reason::Idle => "idle",
        Reason::Stopped => "stopped",
    }
}

/// The name of a verdict: `fresh`, `overlap` or `stray`.
pub(super) fn verdict_name(verdict: Verdict) -> &'static str
    ensures { result.now ≡ spec.verdict_name verdict }
{
    match verdict {
        Verdict::Fresh => "fresh",
        Verdict::Overlap => "overlap",
        Verdict::Stray => "stray",
    }
}
