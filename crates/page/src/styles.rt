/// The styles of a page. The colours of processes are those of Okabe and Ito, which who can't tell red from green can
/// tell apart; the eighth of them, vermilion, is for what goes wrong.
pub(crate) const STYLES: &str = "<style>
:root{--ground:#fff;--ink:#1f2328;--quiet:#57606a;--line:#d0d7de;--soft:#f6f8fa;--mark:#fff3c4;--edge:#9a6700;
--wrong:#b54708;--now:#0969da;--p0:#0072b2;--p1:#e69f00;--p2:#009e73;--p3:#cc79a7;--p4:#56b4e9;--p5:#f0e442;--p6:#999999;
color-scheme:light}
@media(prefers-color-scheme:dark){:root{--ground:#0d1117;--ink:#e6edf3;--quiet:#9198a1;--line:#3d444d;--soft:#161b22;
--mark:#3b3212;--edge:#d29922;--wrong:#ff9b57;--now:#58a6ff;--p0:#3f9fdc;color-scheme:dark}}
*{box-sizing:border-box}
html,body{height:100%}
body{margin:0;padding:.6em 1em;background:var(--ground);color:var(--ink);font:14px/1.4 system-ui,'DejaVu Sans',sans-serif;
display:flex;flex-direction:column;gap:.4em}
h1{font-size:1.15em;margin:0}h2{font-size:1em;margin:.2em 0}
header p,#told{margin:0;color:var(--quiet)}
#told{color:var(--ink);white-space:pre-wrap;font-family:'DejaVu Sans Mono',ui-monospace,monospace;min-height:1.4em}
#controls{display:flex;flex-wrap:wrap;align-items:center;gap:.4em}
#slider{flex:1 1 12em;min-width:8em;accent-color:var(--now)}
button,select,input{font:inherit;color:inherit;background:var(--soft);border:1px solid var(--line);border-radius:4px;padding:.1em .5em}
select{max-width:9em}
:focus-visible{outline:2px solid var(--now);outline-offset:1px}
#lanes{flex:0 1 auto;max-height:38vh;min-height:70px;overflow:hidden auto;border:1px solid var(--line);cursor:pointer}
#tall{position:relative}
#canvas{display:block;position:sticky;top:0}
main{flex:1 1 20em;min-height:16em;display:grid;grid-template-columns:minmax(0,1.2fr) minmax(0,1fr) minmax(0,1fr);gap:1em}
section{display:flex;flex-direction:column;min-height:0}
.rows{flex:1;overflow:auto;position:relative;border:1px solid var(--line);font:13px/20px 'DejaVu Sans Mono',ui-monospace,monospace}
.rows>div{position:relative}
.row{position:absolute;left:0;min-width:100%;height:20px;white-space:pre;padding-right:1em;cursor:pointer}
.row:hover{background:var(--soft)}
.row.now{background:var(--mark);box-shadow:inset 3px 0 var(--edge)}
.row.now .number{font-weight:bold;color:var(--ink)}
.row.hit .words{text-decoration:underline 2px var(--now)}
.number{display:inline-block;min-width:3.5em;padding-right:.6em;text-align:right;color:var(--quiet)}
.row .marks{display:inline-block;width:6.5em;overflow:hidden;vertical-align:top}
.badge{display:inline-block;min-width:1.5em;padding:0 .3em;border-radius:.7em;text-align:center;font-weight:bold;
font-size:12px;line-height:16px;color:#000;border:1px solid rgb(0 0 0/.45)}
.badge.dark{color:#fff}
.badge.waits{border-style:dashed;border-width:2px;background:none!important;color:var(--ink);line-height:14px}
.badge.now{box-shadow:0 0 0 2px var(--ink) inset}
.at{color:var(--quiet)}
#state{overflow:auto}
#hang:empty{display:none}
#hang{border:2px solid var(--wrong);padding:.3em .6em;margin-bottom:.4em}
#hang h2,.wrong{color:var(--wrong)}
#hang p{margin:.2em 0}
table{border-collapse:collapse;width:100%}
td{padding:1px .8em 1px 0;vertical-align:top}
td:first-child{width:1%;white-space:nowrap}
td.value{font-family:'DejaVu Sans Mono',ui-monospace,monospace;overflow-wrap:anywhere}
tr.chosen td{background:var(--soft)}
tr[data-process]{cursor:pointer}
.changed{background:var(--mark);outline:1px solid var(--edge);font-weight:bold;padding:0 .2em}
.changed::before{content:'\\2192'}
.monitor{border-top:1px solid var(--line);padding:.2em 0}
kbd{border:1px solid var(--line);border-radius:3px;padding:0 .3em;background:var(--soft)}
#legend{display:flex;flex-wrap:wrap;gap:.3em 1.2em}
#legend canvas{vertical-align:middle;margin-right:.3em}
@media(max-width:900px){html,body{height:auto}main{grid-template-columns:1fr}.rows{height:18em;flex:none}#state{max-height:none}}
@media(forced-colors:active){.row.now{outline:2px solid}.badge{border-color:currentColor}}
</style>
";
