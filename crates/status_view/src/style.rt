/// The style of the page: light or dark as the reader's system is, on a narrow screen a card for
/// each row. OK is blue and not green, so that those who confuse red and green can tell the states
/// apart; a word stands beside each colour.
pub const STYLE: &str = "\
:root{color-scheme:light dark;--bg:#f5f6f8;--card:#fff;--ink:#18202b;--soft:#566172;--line:#d9dee5;\
--edge:#7d8796;--link:#0a57a6;--ok:#0b5c8f;--okbg:#dceefa;--warning:#332200;--warningbg:#f5b400;--critical:#fff;\
--criticalbg:#a3180c;--unknown:#fff;--unknownbg:#5a2a86;--mark:#4c5665;--markbg:#e6eaef;\
--alarm:#8c1309;--alarmbg:#fde7e4}\
@media(prefers-color-scheme:dark){:root{--bg:#11151b;--card:#1a2028;--ink:#e7ebf0;--soft:#9ba7b6;\
--line:#2e3743;--edge:#6b7788;--link:#86c0ff;--ok:#9ad4ff;--okbg:#123347;--warning:#1f1600;--warningbg:#e0b040;\
--critical:#fff;--criticalbg:#c92a2a;--unknown:#1f0a33;--unknownbg:#c9a5f2;--mark:#b3bdca;\
--markbg:#2a323d;--alarm:#ffb0a6;--alarmbg:#3a1713}}\
*{box-sizing:border-box}\
body{margin:0;background:var(--bg);color:var(--ink);font:15px/1.45 system-ui,sans-serif}\
header,main,footer{max-width:1320px;margin:0 auto;padding:.8rem 1rem}\
a{color:var(--link)}h1{font-size:1.3rem;margin:0}h1 a{text-decoration:none}\
caption{text-align:left;color:var(--soft);padding:.2rem 0 .5rem}\
h2{font-size:1.05rem;margin:1rem 0 .2rem;color:var(--ink)}\
header{display:flex;flex-wrap:wrap;gap:.3rem 1rem;align-items:baseline;padding-bottom:0}\
header p{margin:0;color:var(--soft);font-size:.85rem}header nav{display:flex;gap:.8rem}\
.counts{display:flex;flex-wrap:wrap;gap:.5rem 1.2rem;margin:.6rem 0}\
.group{display:flex;flex-wrap:wrap;gap:.4rem;align-items:center}\
.of{color:var(--soft);font-size:.8rem;width:100%}\
.tile{display:block;min-width:4.6rem;padding:.35rem .6rem;border:1px solid var(--line);\
border-radius:.5rem;background:var(--card);color:var(--soft);text-decoration:none;font-size:.8rem}\
.tile b{display:block;font-size:1.3rem;line-height:1.2;color:var(--ink)}\
.tile:hover,.tile:focus,.tile[aria-current]{border-color:var(--link)}\
.tile[aria-current]{box-shadow:inset 0 -3px var(--link)}\
.critical.tile,.down.tile,.unhandled.tile{border-left:5px solid var(--criticalbg)}\
.warning.tile,.stale.tile{border-left:5px solid var(--warningbg)}\
.unknown.tile,.unreachable.tile{border-left:5px solid var(--unknownbg)}\
.zero.tile{border-left:1px solid var(--line)}.zero.tile b{color:var(--soft);font-weight:400}\
form{display:flex;flex-wrap:wrap;gap:.5rem;margin:.8rem 0;align-items:center}\
input,select,button{font:inherit;font-size:1rem;padding:.35rem .6rem;border:1px solid var(--edge);\
border-radius:.4rem;background:var(--card);color:var(--ink);max-width:100%}\
table{width:100%;border-collapse:collapse;background:var(--card);border:1px solid var(--line)}\
th{font-size:.78rem;font-weight:600;color:var(--soft);text-align:left}\
th[aria-sort]{color:var(--ink)}th[aria-sort=ascending]::after{content:' \\2191'}\
th[aria-sort=descending]::after{content:' \\2193'}\
th,td{padding:.4rem .6rem;border-bottom:1px solid var(--line);vertical-align:top}\
td{overflow-wrap:anywhere}.name+.cell{overflow-wrap:normal}\
.out{white-space:pre-wrap;min-width:9rem}.perf{display:block}.perf:empty{display:none}\
.num{white-space:nowrap}\
.name{font-weight:600}.name a{color:inherit}\
.badge{display:inline-block;padding:.05rem .5rem;border-radius:1rem;font-size:.75rem;\
font-weight:650;white-space:nowrap;overflow-wrap:normal;background:var(--markbg);color:var(--mark)}\
.pending .state{background:none;box-shadow:inset 0 0 0 1px var(--mark)}\
.ok .state,.up .state{background:var(--okbg);color:var(--ok)}\
.warning .state,.stale.badge{background:var(--warningbg);color:var(--warning)}\
.critical .state,.down .state{background:var(--criticalbg);color:var(--critical)}\
.unknown .state,.unreachable .state{background:var(--unknownbg);color:var(--unknown)}\
.soft,.why{color:var(--soft);font-weight:400}.why{font-size:.85rem}\
tr.handled .out,tr.handled .name{color:var(--soft)}\
.alarm{padding:.6rem .8rem;border:1px solid var(--alarm);border-radius:.5rem;\
background:var(--alarmbg);color:var(--alarm);margin:.5rem 0}\
.pages,.asked{margin:.6rem 0}footer{color:var(--soft);font-size:.85rem}\
@media(min-width:1200px){.name{min-width:15rem}.out{min-width:14rem}}\
@media(max-width:1199px){.name{min-width:8rem}td .badge{white-space:normal}}\
@media(max-width:840px){header,main,footer{padding:.6rem}thead{display:none}\
table,caption,tbody,tr,td{display:block;border:0;background:none;padding:0}\
tr{background:var(--card);border:1px solid var(--line);border-radius:.5rem;\
padding:.5rem .7rem;margin-bottom:.5rem}\
td.cell{display:inline-block;margin-right:.7rem}td.name{display:inline}\
td.name::after{content:'\\A';white-space:pre}\
td:empty,td.cell:empty{display:none}\
td[data-name]::before{content:attr(data-name) ' ';color:var(--soft);font-size:.8rem}\
.out{min-width:0}.tile{min-width:4.1rem}}\
";
