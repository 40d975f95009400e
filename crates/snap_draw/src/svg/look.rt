//! The look of a picture, as attributes that every program that draws SVG knows. No byte of them depends on a history. Colours stand by
//! name, as in the style of a page.

/// Of the picture: its ink and its letters.
pub(crate) const WHOLE: &[u8] =
    b" fill=\"--ink\" font-family=\"DejaVu Sans Mono, ui-monospace, Menlo, Consolas, monospace\" font-size=\"11\"";

/// What lies below everything else: the ground, and the pattern of a fault.
pub(crate) const GROUND: &[u8] = b"\
<rect class=\"ground\" width=\"100%\" height=\"100%\" fill=\"--ground\"/>
<defs><pattern id=\"--hatch-name\" width=\"7\" height=\"7\" patternUnits=\"userSpaceOnUse\" patternTransform=\"rotate(45)\"><rect class=\"hatch-ground\" width=\"7\" height=\"7\" fill=\"--wash\"/><path class=\"hatch-line\" d=\"M 0 0 V 7\" stroke=\"--fault\" stroke-width=\"3\"/></pattern></defs>
";

/// Of the bar of an update.
pub(crate) const UPDATE: &[u8] = b" fill=\"--update\" stroke=\"--update\" stroke-width=\"1.5\"";

/// Of the bar of a view.
pub(crate) const VIEW: &[u8] = b" fill=\"--view\" stroke=\"--edge\" stroke-width=\"1.5\"";

/// Of the bar of a call of a fault.
pub(crate) const FAULT: &[u8] = b" fill=\"--hatch\" stroke=\"--fault\" stroke-width=\"3.5\"";

/// Of the bar of any view, in addition.
pub(crate) const ROUND: &[u8] = b" rx=\"9\"";

/// Of the bar of a pending call, in addition.
pub(crate) const PENDING: &[u8] = b" fill-opacity=\"0.45\" stroke-dasharray=\"6 3\"";

/// Of the arrow of a pending update.
pub(crate) const UPDATE_ARROW: &[u8] = b" fill=\"none\" stroke=\"--update\" stroke-width=\"2\"";

/// Of the arrow of a pending view.
pub(crate) const VIEW_ARROW: &[u8] = b" fill=\"none\" stroke=\"--edge\" stroke-width=\"2\"";
