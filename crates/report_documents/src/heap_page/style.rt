//! The style of a page.

/// The text of its element.
pub(crate) const STYLE: &str = "
:root{color-scheme:light dark;--ink:#1c1c1a;--paper:#fff;--soft:#5c5c57;--line:#c9c9c2;
 --cause:#ffe3e3;--red:#c00000;--now:#fff0b8;--focus:#0b57d0}
@media (prefers-color-scheme:dark){:root{--ink:#ecece6;--paper:#17181a;--soft:#a9a9a2;
 --line:#4a4b4e;--cause:#46191b;--red:#ff8a80;--now:#4a4016;--focus:#8ab4f8}}
*{box-sizing:border-box}
body{margin:0 auto;padding:12px 16px 40px;max-width:1180px;color:var(--ink);
 background:var(--paper);font:15px/1.45 system-ui,sans-serif}
h1{font-size:1.35rem;margin:.2em 0;overflow-wrap:anywhere}
h2{font-size:1rem;margin:1.2em 0 .3em}
p{margin:.3em 0}
code,td,th,#now,#stack,#chunks{font-family:ui-monospace,monospace;font-size:13px}
#why{margin:0}
.cause{background:var(--cause);border-left:5px solid var(--red);padding:8px 12px;
 overflow-wrap:anywhere}
#told{font-weight:600}
#stack,#chunks,#chunks ol{margin:.3em 0;padding-left:1.6em}
.library{color:var(--soft)}
.steps{position:sticky;top:0;background:var(--paper);padding:8px 0;z-index:1;
 border-bottom:1px solid var(--line)}
#slider{width:100%;height:28px;margin:2px 0;accent-color:var(--focus)}
.buttons{display:flex;flex-wrap:wrap;gap:6px;align-items:center}
button,input[type=number]{font:inherit;min-height:32px;padding:2px 10px;color:inherit;
 background:transparent;border:1px solid var(--soft);border-radius:4px}
button:disabled{opacity:.45}
input[type=number]{width:8em}
#calls button{min-height:0;padding:0 6px;font:inherit}
:focus-visible{outline:3px solid var(--focus);outline-offset:2px}
#now{min-height:2.9em;overflow-wrap:anywhere}
.wide{overflow:auto}
.tall{max-height:300px}
table{border-collapse:collapse}
#calls td,#calls th,#code td,#code th{text-align:left;padding:1px 10px 1px 4px;
 vertical-align:top;font-weight:400}
thead th{position:sticky;top:0;background:var(--paper);color:var(--soft)}
tr.now td,tr.now th{background:var(--now)}
tr.later{color:var(--soft)}
#heap{border-collapse:separate;border-spacing:1px}
#heap th{font-weight:400;text-align:right;padding-right:8px;color:var(--soft)}
#heap td{width:24px;min-width:24px;height:30px;padding:0;text-align:center;line-height:1;
 border:1px solid var(--line);color:#1c1c1a}
#heap td.none{color:var(--soft)}
#heap i{display:block;font-style:normal;font-size:10px;height:10px}
#heap td.live{border:2px solid #111}
@media (prefers-color-scheme:dark){#heap td.live{border-color:#fff}}
#heap td.freed{border:2px dashed #777}
#heap td.fresh b{text-decoration:underline}
#heap td.touch{outline:3px solid var(--red);outline-offset:-1px}
#heap td.gap{background:none;border:0;height:14px;color:var(--soft);text-align:left}
.key{display:inline-block;min-width:20px;padding:0 4px;margin-right:2px;text-align:center;
 border:1px solid var(--line);color:#1c1c1a;font-family:ui-monospace,monospace;font-size:13px}
.t0{background:#f6f6f2}.t1{background:#a9cbf0}.t2{background:#ffc27a}.t3{background:#a5dd98}
.t4{background:#f9a19a}.t5{background:#c9b3e2}.t6{background:#cfab9b}.t7{background:#f8bcdc}
.t8{background:#d8d684}.t9{background:#93dee6}.ta{background:#ffe86e}.tb{background:#74c7b0}
.tc{background:#8fa6dc}.td{background:#ecc6a8}.te{background:#c3e85f}.tf{background:#d99ad8}
.soft{color:var(--soft)}
@media (max-height:640px){.steps{position:static}}
@media (max-width:720px){body{padding:8px}#heap td{width:20px;min-width:20px}
 #calls td,#calls th,#code td,#code th{padding-right:6px}}
@media print{:root{--ink:#000;--paper:#fff;--soft:#444;--line:#999;--cause:#fff;--red:#000;
 --now:#fff;color-scheme:light}
 .steps,.screen,footer{display:none}.wide,.tall{overflow:visible;max-height:none}
 body{max-width:none;padding:0;font-size:11pt}thead th{position:static}
 #calls button{border:0;padding:0}tr{break-inside:avoid}
 #heap td,.key{print-color-adjust:exact;-webkit-print-color-adjust:exact}
 #heap td.live{border-color:#000}#heap td,#heap th{font-size:8pt}
 #heap td{width:18px;min-width:18px}tr.later{color:inherit}}
";
