/// What the picture begins with, behind its size: colours and lines. The colours are those of Okabe and Ito.
pub(crate) const STYLES: &str = "<style>
text{font-family:'DejaVu Sans Mono','Liberation Mono',ui-monospace,Menlo,Consolas,monospace;font-size:11px;fill:#24292f}
.ground{fill:#fff}
.title{font-size:15px;font-weight:bold}
.thread{text-anchor:end}
.tick{font-size:9px;fill:#57606a;text-anchor:middle}
.stays{fill:#b54708}
.runs{fill:none;stroke:#57606a;stroke-width:1.6}
.sleeps{fill:none;stroke:#0072b2;stroke-width:3;stroke-dasharray:2 4}
.forks,.wakes{fill:none;stroke-width:1.6}
.forks{stroke:#009e73}
.wakes{stroke:#0072b2}
.to-forks{fill:#009e73}
.to-wakes{fill:#0072b2}
.step{fill:#fff;stroke:#24292f}
.waker{fill:#fff;stroke:#0072b2;stroke-width:2}
.outside,.dies{fill:#d55e00;stroke:#fff}
.ends{fill:#24292f}
@media(prefers-color-scheme:dark){
text{fill:#e6edf3}
.ground{fill:#0d1117}
.tick{fill:#9198a1}
.stays{fill:#ff9b57}
.runs{stroke:#9198a1}
.sleeps,.wakes{stroke:#56b4e9}
.to-wakes{fill:#56b4e9}
.step{fill:#0d1117;stroke:#e6edf3}
.waker{fill:#0d1117;stroke:#56b4e9}
.outside,.dies{stroke:#0d1117}
.ends{fill:#e6edf3}
}
</style>
<rect class='ground' width='100%' height='100%'/>
";

/// What the lines and signs are.
pub(crate) const LEGEND: &str = "<path class='runs' d='M0,-4H34'/><text x='40' y='0'>runs</text>
<path class='sleeps' d='M90,-4H124'/><text x='130' y='0'>sleeps</text>
<path class='forks' d='M196,-10V2'/><text x='204' y='0'>makes</text>
<path class='wakes' d='M262,-10V2'/><text x='270' y='0'>wakes</text>
<circle class='step' cx='330' cy='-4' r='3'/><text x='340' y='0'>a step</text>
<circle class='outside' cx='410' cy='-4' r='5'/><text x='420' y='0'>woken or killed from outside</text>
<path class='ends' d='M630,-8h8v8h-8z'/><text x='644' y='0'>ends</text>
<path class='dies' d='M700,-4l5,-5l5,5l-5,5z'/><text x='716' y='0'>dies, or comes to a step that may not be</text>
</g>
";
