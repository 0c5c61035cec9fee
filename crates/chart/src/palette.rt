/// The style sheet's class of a monitor's bars: there are seven colours, each with a pattern of its own. The eighth of
/// the palette is for what goes wrong.
pub(crate) fn colour(monitor: u32) -> u64 {
    u64::from(monitor % 7)
}

/// What the picture begins with, behind its size: colours, lines, arrowheads and patterns. The colours are those of Okabe
/// and Ito, but for their black, in place of which stands a grey that is seen on both grounds.
pub(crate) const STYLES: &str = "<style>
text{font-family:'DejaVu Sans Mono','Liberation Mono',ui-monospace,Menlo,Consolas,monospace;font-size:9px;fill:#24292f}
.ground{fill:#fff}
.title{font-size:15px;font-weight:bold}
.caption{font-size:10px}
.hang{font-size:10px;fill:#b54708}
.process{font-size:11px;text-anchor:end}
.legend text{font-size:10px}
.tick{fill:#57606a;text-anchor:middle}
.axis{fill:#57606a;text-anchor:end}
.grid{stroke:#eaeef2}
.base{stroke:#d0d7de}
.condition{font-style:italic}
.print{font-weight:bold}
.fault{fill:#b54708;font-weight:bold}
.note{font-size:10px}
.quiet{fill:#57606a}
.action{fill:#fff;stroke:#24292f}
.notifies{fill:#fff;stroke:#0072b2;stroke-width:2}
.fails{fill:#d55e00;stroke:#fff}
.end{fill:#24292f}
.cross{stroke:#d55e00;stroke-width:2.5;fill:none}
.halo{stroke:#fff;stroke-width:5;fill:none}
.under{fill:#fff}
.runs,.enters,.resumed,.joins,.over,.dies{fill:none;stroke:#57606a;stroke-width:1.6}
.enters{stroke-width:3.5;stroke-dasharray:7 3}
.resumed{stroke-width:3.5;stroke-dasharray:1.5 3}
.joins{stroke-dasharray:2 5;stroke-width:2}
.over{stroke:#8c959f;stroke-width:1;stroke-dasharray:1 5}
.dies{stroke:#d55e00;stroke-width:3}
.fork,.notify,.join,.awaits{fill:none;stroke-width:1.6}
.fork{stroke:#009e73;marker-end:url(#forked)}
.notify{stroke:#0072b2;marker-end:url(#resumed)}
.join{stroke:#a04f80;stroke-dasharray:4 2;marker-end:url(#joined)}
.awaits{marker-end:url(#awaited)}
.forked{fill:#009e73}.woken{fill:none;stroke:#0072b2;stroke-width:1.4}.joined{fill:#a04f80}
rect.m0,rect.m1,rect.m2,rect.m3,rect.m4,rect.m5,rect.m6{stroke:#24292f;stroke-width:.8}
rect.m0{fill:#0072b2}rect.m1{fill:url(#p1)}rect.m2{fill:url(#p2)}rect.m3{fill:url(#p3)}
rect.m4{fill:url(#p4)}rect.m5{fill:url(#p5)}rect.m6{fill:url(#p6)}
path.m0,rect.waits.m0{stroke:#0072b2}path.m1,rect.waits.m1{stroke:#b87a00}path.m2,rect.waits.m2{stroke:#009e73}
path.m3,rect.waits.m3{stroke:#b8628f}path.m4,rect.waits.m4{stroke:#2b8fc4}path.m5,rect.waits.m5{stroke:#9a9000}
path.m6,rect.waits.m6{stroke:#7f7f7f}
rect.waits{fill:#fff;stroke-width:1.6;stroke-dasharray:4 2}
@media(prefers-color-scheme:dark){
text{fill:#e6edf3}
.ground,.under,rect.waits{fill:#0d1117}
.tick,.axis,.quiet{fill:#9198a1}
.grid{stroke:#21262d}
.base{stroke:#3d444d}
.hang,.fault{fill:#ff9b57}
.action,.notifies{fill:#0d1117}
.action{stroke:#e6edf3}
.notifies,.notify,.woken{stroke:#56b4e9}
.join{stroke:#e3a3c7}.joined{fill:#e3a3c7}
.fails{stroke:#0d1117}
.end{fill:#e6edf3}
.halo{stroke:#0d1117}
.runs,.enters,.resumed,.joins,.over{stroke:#9198a1}
rect.m0,rect.m1,rect.m2,rect.m3,rect.m4,rect.m5,rect.m6{stroke:#e6edf3}
path.m0,rect.waits.m0{stroke:#3f9fdc}path.m1,rect.waits.m1{stroke:#e69f00}path.m3,rect.waits.m3{stroke:#cc79a7}
path.m4,rect.waits.m4{stroke:#56b4e9}path.m5,rect.waits.m5{stroke:#f0e442}path.m6,rect.waits.m6{stroke:#999}
}
";

/// The styles behind these of what goes on to the end, in a run that gets stuck, with the end of the style sheet.
pub(crate) const STUCK: &str = "path.never,rect.waits.never,.awaits{stroke:#d55e00;stroke-width:3}
.awaited{fill:#d55e00}
</style>
";

/// The same of a run that doesn't.
pub(crate) const UNSTUCK: &str = "path.never,rect.waits.never,.awaits{stroke:#7f868e}
.awaited{fill:#7f868e}
</style>
";

/// The arrowheads and patterns, and the ground.
pub(crate) const SHAPES: &str = "<defs>
<pattern id='p1' width='6' height='6' patternUnits='userSpaceOnUse' patternTransform='rotate(45)'>\
<rect width='6' height='6' fill='#e69f00'/><path d='M1,0V6' stroke='#000' stroke-opacity='.45' stroke-width='2'/></pattern>
<pattern id='p2' width='5' height='5' patternUnits='userSpaceOnUse'>\
<rect width='5' height='5' fill='#009e73'/><circle cx='2.5' cy='2.5' r='1.2' fill='#fff' fill-opacity='.75'/></pattern>
<pattern id='p3' width='6' height='6' patternUnits='userSpaceOnUse' patternTransform='rotate(-45)'>\
<rect width='6' height='6' fill='#cc79a7'/><path d='M1,0V6' stroke='#fff' stroke-opacity='.8' stroke-width='2'/></pattern>
<pattern id='p4' width='4' height='4' patternUnits='userSpaceOnUse'>\
<rect width='4' height='4' fill='#56b4e9'/><path d='M0,1H4' stroke='#000' stroke-opacity='.45'/></pattern>
<pattern id='p5' width='5' height='5' patternUnits='userSpaceOnUse'>\
<rect width='5' height='5' fill='#f0e442'/><path d='M0,.5H5M.5,0V5' stroke='#000' stroke-opacity='.4'/></pattern>
<pattern id='p6' width='4' height='4' patternUnits='userSpaceOnUse'>\
<rect width='4' height='4' fill='#999'/><path d='M1,0V4' stroke='#fff' stroke-opacity='.8' stroke-width='1.5'/></pattern>
<marker id='forked' markerWidth='7' markerHeight='7' refX='5' refY='3' orient='auto' markerUnits='userSpaceOnUse'>\
<path class='forked' d='M0,0L6,3L0,6z'/></marker>
<marker id='resumed' markerWidth='8' markerHeight='8' refX='6' refY='4' orient='auto' markerUnits='userSpaceOnUse'>\
<path class='woken' d='M1,1L6,4L1,7'/></marker>
<marker id='joined' markerWidth='7' markerHeight='7' refX='5' refY='3' orient='auto' markerUnits='userSpaceOnUse'>\
<path class='joined' d='M0,0L6,3L0,6z'/></marker>
<marker id='awaited' markerWidth='9' markerHeight='9' refX='7' refY='4' orient='auto' markerUnits='userSpaceOnUse'>\
<path class='awaited' d='M0,0L8,4L0,8z'/></marker>
</defs>
<rect class='ground' width='100%' height='100%'/>
";
