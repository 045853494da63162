//! The opening of a picture: how its shapes look in light and in dark.
use crate::shapes::put_box;
use crate::sheet::{At, Sheet};
use shell_texts::Text;
use std::io;

const STYLE: &str = "<style>
text{font-family:sans-serif;font-size:11px;fill:#111}
.middle,.number,.struck{text-anchor:middle}
.number,.low{font-size:10px}
.name,.low{text-anchor:end}
.name,.own,.round,.refused{font-family:monospace}
.round{font-style:italic}
.refused{text-decoration:line-through}
.struck{font-size:10px;text-decoration:line-through}
.page{fill:#fff;stroke:none}
path{stroke:#111;fill:none}
rect,circle{stroke:#111;fill:#fff}
.faint{stroke:#bbb}
.thick{stroke-width:3}
.rolling{stroke-width:3;stroke-dasharray:3 3}
.prev{marker-end:url(#tip)}
.next{stroke:#0072b2;stroke-dasharray:4 2;marker-end:url(#blue)}
.stable{stroke-dasharray:1 3}
.message{marker-end:url(#tip)}
.again{stroke-dasharray:5 3;marker-end:url(#tip)}
.late{stroke:#d55e00;stroke-width:2;marker-end:url(#red)}
.lateagain{stroke:#d55e00;stroke-width:2;stroke-dasharray:5 3;marker-end:url(#red)}
.lost{stroke:#d55e00}
.cross{stroke:#d55e00;stroke-width:2}
.ink{fill:#111}
.comp{fill:#cfe6f5;stroke:#0072b2}
.answer{fill:#e8e8e8}
.crash{fill:#ddd;stroke:#888}
.rise{fill:none;stroke:#888;stroke-dasharray:4 3}
.tip{fill:#111;stroke:none}
.blue{fill:#0072b2;stroke:none}
.red{fill:#d55e00;stroke:none}
@media(prefers-color-scheme:dark){
text{fill:#eee}
.page{fill:#181818}
path{stroke:#eee}
rect,circle{stroke:#eee;fill:#181818}
.faint{stroke:#555}
.next{stroke:#56b4e9}
.late,.lateagain,.lost,.cross{stroke:#e69f00}
.ink{fill:#eee}
.comp{fill:#12384d;stroke:#56b4e9}
.answer{fill:#383838}
.crash{fill:#444;stroke:#999}
.rise{fill:none;stroke:#999}
.tip{fill:#eee}
.blue{fill:#56b4e9}
.red{fill:#e69f00}
}
</style>
<defs>
<marker id=\"tip\" markerWidth=\"7\" markerHeight=\"6\" refX=\"7\" refY=\"3\" orient=\"auto\" \
markerUnits=\"userSpaceOnUse\"><path class=\"tip\" d=\"M0 0L7 3L0 6z\"/></marker>
<marker id=\"blue\" markerWidth=\"7\" markerHeight=\"6\" refX=\"7\" refY=\"3\" orient=\"auto\" \
markerUnits=\"userSpaceOnUse\"><path class=\"blue\" d=\"M0 0L7 3L0 6z\"/></marker>
<marker id=\"red\" markerWidth=\"7\" markerHeight=\"6\" refX=\"7\" refY=\"3\" orient=\"auto\" \
markerUnits=\"userSpaceOnUse\"><path class=\"red\" d=\"M0 0L7 3L0 6z\"/></marker>
</defs>
";

pub fn put_opening<W: io::Write>(text: &mut Text<'_, W>, sheet: Sheet) {
    text.say("<svg xmlns=\"http://www.w3.org/2000/svg\" viewBox=\"0 0 ")
        .number(sheet.width)
        .say(" ")
        .number(sheet.height)
        .say("\" width=\"")
        .number(sheet.width)
        .say("\" height=\"")
        .number(sheet.height)
        .say("\">\n")
        .say(STYLE);
    let middle = At {
        x: sheet.width / 2,
        y: sheet.height / 2,
    };
    put_box(text, "page", middle, sheet.width, sheet.height);
}
