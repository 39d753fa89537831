//! The colours and the font of an SVG.
ghost use Rattle.mp_streams.specs.Outgoing.{Writes};
ghost use Rattle.mp_picture.specs.svg.Styles.{style};

use mp_streams::{Failed, Out, Sink};

/// Dark on light ground, and light on dark ground if the reader prefers that. A digit is a column wide at most.
const STYLE: &str = "<style>\
svg{background:#fff}\
text{font:13px Menlo,Consolas,'DejaVu Sans Mono',monospace;fill:#1f2328}\
.axis text{fill:#59636e}\
.axis path{fill:none;stroke:#d1d9e0;shape-rendering:crispEdges}\
.level{fill:none;stroke:#0969da;stroke-width:2;stroke-linejoin:round}\
.band{fill:#0969da;fill-opacity:.4}\
.value rect{fill:none;pointer-events:all}\
.value text{paint-order:stroke;stroke:#fff;stroke-width:3}\
.finding path{fill:#cf222e}\
.leads path{fill:none;stroke:#cf222e;stroke-opacity:.5}\
.word text{fill:#cf222e;paint-order:stroke;stroke:#fff;stroke-width:3}\
@media (prefers-color-scheme:dark){\
svg{background:#0d1117}\
text{fill:#f0f6fc}\
.axis text{fill:#9198a1}\
.axis path{stroke:#2f3742}\
.level{stroke:#4493f8}\
.band{fill:#4493f8}\
.value text{stroke:#0d1117}\
.finding path{fill:#f85149}\
.leads path{stroke:#f85149}\
.word text{fill:#f85149;stroke:#0d1117}\
}</style>\n";

#[tactic(auto, unfolding(crate::specs::svg::Styles::style))]
pub(crate) fn put_style<S: Sink>(out: &mut Out<S>) -> Result<(), Failed>
    ensures { Writes result out.old out.new style }
{
    out.put_text(STYLE)
}
