//! The page around a picture, with a style for light and dark. No byte of it depends on a history.

/// What a page has before its colours.
pub(crate) const HEAD: &[u8] = b"\
<!doctype html>
<html lang='en'>
<head>
<meta charset='utf-8'>
<meta name='viewport' content='width=device-width, initial-scale=1'>
<meta http-equiv='Content-Security-Policy' content='default-src &#39;none&#39;; style-src &#39;unsafe-inline&#39;; script-src &#39;unsafe-inline&#39;'>
<title>A run, drawn by snapjudge</title>
<style>
";

/// The style of a page after its colours, and the page up to its picture.
pub(crate) const STYLE: &[u8] = b"\
[data-id=run] { background: var(--ground); color: var(--ink); font: 11px ui-monospace, 'DejaVu Sans Mono', Menlo, Consolas, monospace; }
[data-id=run] text { fill: var(--ink); }
.ground { display: none; }
[data-id=backs] { fill: var(--ground); }
[data-id=verdict] { font-size: 13px; font-weight: bold; }
[data-id=strip] .all { fill: var(--faint); }
[data-id=strip] .window { fill: none; stroke: var(--quiet); stroke-width: 1.5; }
[data-id=strip] .tick { fill: none; stroke: var(--fault); stroke-width: 3; }
[data-id=records] text, [data-id=places] text { text-anchor: middle; }
[data-id=run] [data-id=records] text { fill: var(--quiet); }
[data-id=run] .name { font-weight: bold; paint-order: stroke; stroke: var(--ground); stroke-width: 4; }
.lane .line { fill: none; stroke: var(--faint); stroke-width: 1; }
.bar { stroke-width: 1.5; stroke: var(--update); fill: var(--update); }
.view .bar { stroke: var(--edge); fill: var(--view); rx: 9px; }
.pending .bar { stroke-dasharray: 6 3; fill-opacity: 0.45; }
.open { fill: none; stroke-width: 2; stroke: var(--update); }
.view .open { stroke: var(--edge); }
[class*='fault-'] .bar { stroke: var(--fault); stroke-width: 3.5; fill: url(#snapjudge-light); }
.tag, .mark text { font-weight: bold; }
[data-id=run] .tag, [data-id=run] .mark text { fill: var(--fault); }
.hatch-ground { fill: var(--wash); }
.hatch-line { stroke: var(--fault); stroke-width: 3; }
[data-id=order] .line { fill: none; stroke: var(--line); stroke-width: 1.5; stroke-opacity: 0.8; stroke-linejoin: round; }
[data-id=places] .point { fill: var(--line); stroke: var(--ground); stroke-width: 1.5; }
[data-id=run] .place { font-weight: bold; fill: var(--line); }
.call:focus { outline: none; }
.call:focus .bar, .call:hover .bar, .call.chosen .bar { stroke: var(--ink); stroke-width: 4; }
body { margin: 0 auto; padding: 12px; max-width: 1400px; box-sizing: border-box; background: var(--ground); color: var(--ink); font: 15px/1.4 system-ui, sans-serif; }
h1 { font-size: 20px; margin: 0 0 8px; }
h2 { font-size: 15px; margin: 0 0 4px; }
ul { margin: 0 0 8px; padding-left: 20px; }
kbd { border: 1px solid var(--quiet); border-radius: 3px; padding: 0 4px; }
pre { margin: 4px 0; white-space: pre-wrap; }
#faults { color: var(--fault); font-weight: bold; }
#view { overflow: auto; max-height: 75vh; border: 1px solid var(--faint); cursor: grab; }
#view:focus-visible { outline: 2px solid var(--line); }
#view svg { display: block; }
.script #view .mark text, .script [data-id=verdict] { display: none; }
#panel { border-left: 4px solid var(--quiet); margin: 8px 0; padding: 4px 10px; min-height: 104px; overflow-wrap: anywhere; }
#panel p { margin: 4px 0 0; font-weight: bold; }
#panel.is-fault { border-left: 8px double var(--fault); }
.moves { margin: 6px 0; font-size: 13px; }
#kinds label { margin-left: 8px; white-space: nowrap; }
#held { margin: 6px 0; font-size: 13px; }
[data-id=strip] .all, [data-id=strip] .window { pointer-events: all; }
#legend { display: flex; flex-wrap: wrap; gap: 4px 18px; margin: 0; padding: 0; list-style: none; font-size: 13px; }
#legend svg { vertical-align: middle; }
#help { font-size: 13px; color: var(--quiet); margin: 8px 0 0; }
@media print { body { max-width: none; padding: 0; } #view { overflow: visible; max-height: none; border: 0; } #view svg { width: 100% !important; height: auto !important; } #panel, #help, .moves { display: none; } }
</style>
</head>
<body>
<h1 id='heading'>A run, drawn by snapjudge</h1>
<ul id='faults' hidden></ul>
<div id='view' tabindex='0' role='region' aria-label='The calls of the run, one bar each'>
";

/// What a page has after its picture: how to go on in a long run and from fault to fault.
pub(crate) const MOVES: &[u8] = b"\
</div>
<p class='moves' id='pages' hidden><button id='earlier'>earlier</button> <button id='later'>later</button> <button id='first'>first picture</button> <span id='where'></span></p>
<p class='moves' id='marks' hidden><button id='previous'>previous fault</button> <button id='next'>next fault</button> <span id='kinds'></span></p>
";

/// What a page has below that: the panel and the legend.
pub(crate) const TAIL: &[u8] = b"\
<div id='panel' role='status'><h2>No call is chosen</h2>Point at a bar, tap it, or go to it with <kbd>Tab</kbd>.</div>
<ul id='legend'>
<li data-of='.update'><svg width='34' height='14'><g class='update'><rect class='bar' x='3' y='3' width='28' height='8'/></g></svg> update</li>
<li data-of='.view'><svg width='34' height='14'><g class='view'><rect class='bar' x='3' y='3' width='28' height='8'/></g></svg> view</li>
<li data-of='.pending'><svg width='34' height='14'><g class='update pending'><rect class='bar' x='3' y='3' width='20' height='8'/><path class='open' d='M 23 2 l 5 5 l -5 5'/></g></svg> pending: no end</li>
<li data-of='.mark'><svg width='34' height='14'><g class='fault-read'><rect class='bar' x='3' y='3' width='28' height='8'/></g></svg> call of a fault, with its kind below</li>
<li data-of='[data-id=order]'><svg width='34' height='14'><g style='fill: var(--line); stroke: var(--line)'><path d='M 3 7 H 31'/><circle cx='17' cy='7' r='4'/></g></svg> order: one that explains all views, a point where each call takes effect</li>
<li data-of='[data-id=strip]'><svg width='34' height='14'><rect x='1' y='4' width='32' height='6' style='fill: var(--faint)'/><rect x='9' y='2' width='14' height='10' style='fill: none; stroke: var(--quiet); stroke-width: 1.5'/><path d='M 18 2 V 12' style='stroke: var(--fault); stroke-width: 3'/></svg> strip: the whole run, a frame around what is drawn, a mark where a fault begins</li>
</ul>
<p id='help'><kbd>+</kbd> <kbd>-</kbd> or the wheel: larger, smaller. <kbd>0</kbd>: the whole picture. Arrows or a drag: move. <kbd>Tab</kbd>: the next call. A click on the strip of a long run: that part of it. The numbers above the bars are the records of the text. <code>p0</code> is process 0. <code>0:1:7</code> is component 0, its update 1 and the value 7.</p>
";
