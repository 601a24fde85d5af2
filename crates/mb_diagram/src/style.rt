//! The style of pictures and pages, readable in light, dark and grey, and what the page does where scripts run.

/// The beginning of a picture, with its style and the tips of arrows, up to the page. Its places are for the width and the height, three
/// times.
pub(crate) const PICTURE_HEAD: &str =
    "<svg xmlns=\"http://www.w3.org/2000/svg\" viewBox=\"0 0 $ $\" width=\"$\" height=\"$\" role=\"img\">
<title>What came to each actor of a run, from top to bottom</title>
<style>
  .page { fill: #ffffff } .lane { stroke: #8a95a1; stroke-width: 1.2 } .line { stroke: #b3bcc5 }
  .box { fill: #eef3fb; stroke: #1f4e8c } .end { stroke: #333d47; stroke-width: 4 }
  .arrow { fill: none; stroke: #333d47; stroke-width: 1.5 } .tip { fill: #333d47 }
  .arrow.system { stroke: #1f5fb4; stroke-dasharray: 6 4 } .system-tip { fill: #1f5fb4 } .dot { fill: #1f5fb4 }
  .cross { fill: none; stroke: #b3261e; stroke-width: 2.4 } .bar { fill: #f0b429; stroke: #7a5200 }
  text { font: 12px Helvetica, Arial, 'DejaVu Sans', sans-serif }
  .title { fill: #16202a; font-weight: bold; font-size: 13px }
  .label, .note, .bad { paint-order: stroke; stroke: #ffffff; stroke-width: 3px; stroke-linejoin: round }
  .label { fill: #16202a } .note { fill: #4a5560; font-size: 11px } .bad { fill: #b3261e; font-size: 11px; font-weight: bold }
  .after { fill: #4a5560; font-weight: normal }
  @media (prefers-color-scheme: dark) {
    .page { fill: #14191f } .lane { stroke: #7d8894 } .line { stroke: #46515c } .box { fill: #22303f; stroke: #8db8f0 }
    .end { stroke: #c9d2db } .arrow { stroke: #c9d2db } .tip { fill: #c9d2db } .arrow.system { stroke: #8db8f0 }
    .system-tip { fill: #8db8f0 } .dot { fill: #8db8f0 } .cross { stroke: #ff8a80 } .bar { fill: #c98f10; stroke: #ffe0a3 }
    .title { fill: #eef2f6 } .label, .note, .bad { stroke: #14191f } .label { fill: #eef2f6 } .note { fill: #b7c1cb }
    .bad { fill: #ff8a80 } .after { fill: #b7c1cb }
  }
</style>
<defs><marker id=\"tip\" viewBox=\"0 0 10 10\" refX=\"9\" refY=\"5\" markerWidth=\"8\" markerHeight=\"8\" \
markerUnits=\"userSpaceOnUse\" orient=\"auto\"><path class=\"tip\" d=\"M0,0 L10,5 L0,10 z\"/></marker>\
<marker id=\"system-tip\" viewBox=\"0 0 10 10\" refX=\"9\" refY=\"5\" markerWidth=\"8\" markerHeight=\"8\" \
markerUnits=\"userSpaceOnUse\" orient=\"auto\"><path class=\"system-tip\" d=\"M0,0 L10,5 L0,10 z\"/></marker></defs>
<rect class=\"page\" width=\"$\" height=\"$\"/>
";

/// The beginning of a page, with its style, up to the report. The diagram and the journals stand side by side where there is room and a
/// journal is open; else the diagram has the full width.
pub(crate) const PAGE_HEAD: &str = "<!DOCTYPE html>
<html lang=\"en\">
<head><meta charset=\"utf-8\"><meta name=\"viewport\" content=\"width=device-width, initial-scale=1\"><title>A run of actors</title>
<style>
  :root { color-scheme: light dark }
  body { margin: 16px; font: 14px Helvetica, Arial, 'DejaVu Sans', sans-serif; background: #ffffff; color: #16202a }
  pre { overflow: auto; padding-bottom: 16px } h1 { font-size: 18px } h2 { font-size: 15px; margin: 4px 0 } a { color: #1f5fb4 }
  form { display: none; flex-wrap: wrap; align-items: center; gap: 8px 16px; margin: 8px 0 } .scripted form { display: flex }
  main { display: grid; grid-template-columns: minmax(0, 1fr); gap: 16px } .diagram, aside { overflow: auto; max-height: 90vh }
  .diagram svg { display: block } .diagram .names { position: sticky; top: 0; z-index: 1; overflow: visible }
  table { border-collapse: collapse; width: 100% } td, th { text-align: left; vertical-align: top; padding: 2px 8px 2px 0 }
  td { border-top: 1px solid #b3bcc5 } td, th { white-space: nowrap } summary { font-weight: bold; padding: 4px 0 } .failure td { color: #b3261e }
  .scripted .diagram > svg, .scripted .entry { cursor: pointer } .hidden { display: none }
  .mark { fill: #fdf0c4 } .target td { background: #fdf0c4 } .row:focus, .entry:focus { outline: none }
  main:has(details[open]) .diagram, main:has(details[open]) aside { max-height: 46vh }
  @media (min-width: 1300px) {
    main:has(details[open]) { grid-template-columns: minmax(0, 1fr) minmax(0, 1fr) }
    main:has(details[open]) .diagram, main:has(details[open]) aside { max-height: 90vh }
  }
  @media (prefers-color-scheme: dark) {
    body { background: #14191f; color: #eef2f6 } a { color: #8db8f0 } .failure td { color: #ff8a80 }
    .mark { fill: #4a3f14 } .target td { background: #4a3f14 }
  }
</style></head>
<body>
<h1>A run of actors</h1>
";

/// The choice of kinds, of failures and of words, behind that of an actor, which shows where scripts run; and the beginning of the picture.
pub(crate) const PAGE_KINDS: &str = "</select></label>
<label><input type=\"checkbox\" name=\"kind\" value=\"user\" checked> envelopes</label>
<label><input type=\"checkbox\" name=\"kind\" value=\"system\" checked> system messages</label>
<label><input type=\"checkbox\" id=\"failures\"> failures only</label>
<label>search <input type=\"search\" id=\"words\"></label>
<output id=\"count\"></output>
</form>
<main>
<div class=\"diagram\" tabindex=\"0\">
";
