//! The style sheet that each page carries in its head.

ghost use Rattle.std.specs.Prelude.{◌≡◌, ◌++◌, OnOk};
ghost use Rattle.page_parts.specs.Style.{style_text};

use std::alloc::AllocError;

/// Adds the style sheet.
pub(crate) fn add_style(page: &mut Vec<u8>) -> Result<(), AllocError>
    ensures { OnOk result (page.new.items ≡ page.old.items ++ style_text) }
{
    page.extend_from_slice(COLOURS.as_bytes())?;
    page.extend_from_slice(WORDS.as_bytes())?;
    page.extend_from_slice(FACTS.as_bytes())?;
    page.extend_from_slice(TABLES.as_bytes())?;
    page.extend_from_slice(USES.as_bytes())?;
    page.extend_from_slice(NOTES.as_bytes())?;
    page.extend_from_slice(NARROW.as_bytes())?;
    page.extend_from_slice(PAPER.as_bytes())
}

/// Colours: screens and paper are light, and a screen that asks for it is dark.
const COLOURS: &str = "\
    :root{--paper:#fff;--wash:#f4f6f7;--line:#d5dbe0;--rule:#16202a;--ink:#16202a;--soft:#56616c;\
    --accent:#0d5b6d;--neg:#a61b1b;--negwash:#fcf1ef;--work:#6b4214;--land:#a4641b;--over:#cf9436;\
    --open:#e8c98d;--serif:\"Iowan Old Style\",\"Palatino Linotype\",Palatino,\"Book Antiqua\",\"URW Palladio L\",P052,\
    Georgia,serif;--sans:-apple-system,\"Segoe UI\",Roboto,\"Helvetica Neue\",\"Liberation Sans\",Arial,sans-serif;\
    color-scheme:light}\
    @media screen and (prefers-color-scheme:dark){:root{--paper:#11161b;--wash:#1a2127;--line:#303a43;\
    --rule:#aeb9c2;--ink:#e7ecf0;--soft:#a2aeb9;--accent:#7cc9d9;--neg:#ff9a90;--negwash:#2a1a1b;--work:#f0d29a;\
    --land:#d6a04a;--over:#a9722a;--open:#76501f;color-scheme:dark}}";

/// The page, and its text.
const WORDS: &str = "\
    *{box-sizing:border-box}html{-webkit-text-size-adjust:100%;text-size-adjust:100%}\
    body{margin:0;background:var(--paper);color:var(--ink);font:1rem/1.5 var(--sans);\
    font-variant-numeric:lining-nums tabular-nums}main,footer,nav{max-width:64rem;margin:0 auto;padding:0 2rem}\
    nav{padding-top:1.25rem;font-size:.875rem;color:var(--soft)}nav a,nav b{margin-right:1.25rem}\
    nav b{color:var(--ink);font-weight:600}header{padding:3.5rem 0 2.25rem;border-bottom:2px solid var(--rule)}\
    section{margin-top:3.75rem}p{margin:.6rem 0;max-width:42rem}p,footer{overflow-wrap:anywhere}\
    a{color:var(--accent);text-underline-offset:.15em;text-decoration-thickness:1px}\
    a:focus-visible{outline:2px solid var(--accent);outline-offset:2px}\
    h1,h2,h3{font-family:var(--serif);font-weight:400;line-height:1.15;margin:0;overflow-wrap:anywhere}\
    h1{font-size:2.75rem;letter-spacing:-.01em}h2{font-size:1.6rem;margin-bottom:.9rem}\
    h3{font-size:1.15rem;margin-bottom:.4rem}\
    .kind{margin:0 0 .75rem;font-size:.8125rem;letter-spacing:.08em;text-transform:uppercase;color:var(--soft)}\
    .lead{color:var(--soft);margin:.9rem 0 0}\
    code{font:.9em ui-monospace,SFMono-Regular,Menlo,Consolas,\"Liberation Mono\",monospace;\
    background:var(--wash);padding:.1em .3em;white-space:nowrap}\
    small,.code{font-size:.8125em;color:var(--soft);font-weight:400}.neg,.neg>*{color:var(--neg)}\
    .key{display:inline-block;width:.75em;height:.75em;margin-right:.55em;border:1px solid var(--soft)}";

/// Facts beside a title, and the large figures.
const FACTS: &str = "\
    .facts{display:flex;flex-wrap:wrap;gap:1rem 2.5rem;margin:1.75rem 0 0}.facts div{min-width:0}\
    dt{font-size:.8125rem;color:var(--soft)}dd{margin:0;overflow-wrap:anywhere}\
    .due,.sum{display:flex;flex-wrap:wrap;align-items:flex-end;gap:1.25rem 2rem;margin:2.25rem 0 0}\
    .fig{margin:0;max-width:none}.fig span{display:block;font-size:.875rem;color:var(--soft)}\
    .fig b{font-weight:500;font-size:2.25rem;line-height:1.25;letter-spacing:-.015em;white-space:nowrap}\
    .due .fig b{font-size:3.25rem}.fig i{display:block;font-style:normal;font-size:.875rem;color:var(--soft)}\
    .fig b i{display:inline;font-size:1.125rem;letter-spacing:0;margin-left:.4em}.fig.neg b{color:var(--neg)}\
    .op{font-size:2rem;color:var(--soft);line-height:2.8125rem;margin-bottom:1.3125rem}";

/// Tables, and bars.
const TABLES: &str = "\
    table{border-collapse:collapse;width:100%}\
    caption{text-align:left;color:var(--soft);font-size:.875rem;padding:0 0 .6rem;max-width:42rem}\
    th,td{padding:.4rem .6rem;text-align:left;vertical-align:baseline;font-weight:400;\
    border-bottom:1px solid var(--line);overflow-wrap:break-word}tbody th{overflow-wrap:anywhere}\
    th:first-child,td:first-child{padding-left:0}th:last-child,td:last-child{padding-right:0}\
    thead th,thead td{font-size:.8125rem;color:var(--soft);border-bottom:1px solid var(--rule);\
    vertical-align:bottom}.n{text-align:right;white-space:nowrap}\
    tfoot th,tfoot td{font-weight:600;border-bottom:3px double var(--rule);border-top:1px solid var(--rule)}\
    .stack{display:grid;gap:3rem;grid-template-columns:1fr 1fr}.stack>*{min-width:0}.bars{font-size:.9375rem}\
    .bars th,.bars td{padding-top:.3rem;padding-bottom:.3rem}.bars tr>:first-child{width:40%}\
    .stack .bars tr>:first-child{width:43%}.stack .bars .n{padding-left:.6rem}.bars .n{padding-left:1rem}\
    .bars td:nth-child(2){vertical-align:middle}.bars+.bars{margin-top:2.5rem}\
    .bar{display:block;width:100%;height:.6rem;fill:var(--accent)}.bar .minus{fill:var(--neg)}\
    .bar .rest{fill:var(--soft)}.bar .axis{fill:var(--ink)}.WORK{fill:var(--work)}.LAND{fill:var(--land)}\
    .OVER{fill:var(--over)}.OPEN{fill:var(--open)}\
    .whole{display:block;width:100%;height:1.75rem;margin:1rem 0 1.25rem}\
    .whole rect{stroke:var(--paper);stroke-width:2;vector-effect:non-scaling-stroke}";

/// The table of uses.
const USES: &str = "\
    .uses{font-size:.875rem}.uses thead th{position:sticky;top:0;background:var(--paper);z-index:1}\
    .uses td,.uses tbody th{padding-top:.28rem;padding-bottom:.28rem}\
    .uses tbody th[scope=row]{white-space:pre-wrap}.uses td:nth-child(1){color:var(--soft);width:4.5em}\
    .uses th[scope=row]{width:27%}.uses td:nth-child(3){width:20%}.uses td:nth-child(4){width:7.5em}\
    .uses td:nth-child(n+5),.uses th:nth-child(n+5),.uses .work td{text-align:right;white-space:nowrap}\
    .uses .work th,.uses .work td{padding-top:1.35rem;font-size:1rem;border-bottom-color:var(--rule);width:auto}\
    .uses .work th b{font-weight:600;unicode-bidi:isolate}.uses .work td{font-weight:600}\
    .uses tr.neg:not(.work)>*{background:var(--negwash)}\
    .uses tr.neg .code,.uses tr.neg td:nth-child(1){color:inherit}\
    .uses tfoot th,.uses tfoot td{padding-top:.7rem;font-size:1rem}\
    .back{font-size:.7rem;font-weight:600;letter-spacing:.04em;border:1px solid;border-radius:2px;\
    padding:0 .3em;margin-left:.4em;white-space:nowrap}.lead .back{margin-left:0}";

/// What to do, and notes.
const NOTES: &str = "\
    .todo{border-left:3px solid var(--accent);padding:.1rem 0 .1rem 1rem;margin:1rem 0 1.5rem}\
    .todo p{margin:.35rem 0}\
    .notes{display:grid;grid-template-columns:1fr 1fr;gap:1.5rem 3rem;font-size:.9375rem}\
    footer{font-size:.8125rem;color:var(--soft);padding-top:1rem;padding-bottom:3rem;margin-top:4rem}";

/// Narrow screens, where a row of uses becomes two or three lines.
const NARROW: &str = "\
    @media screen and (max-width:52rem){.stack{grid-template-columns:1fr;gap:2.5rem}\
    .notes{grid-template-columns:1fr}.uses thead th:nth-child(n+5){white-space:normal}}\
    @media screen and (max-width:40rem){main,footer,nav{padding-left:1rem;padding-right:1rem}\
    header{padding:2.25rem 0 1.5rem}section{margin-top:2.75rem}h1{font-size:2rem}h2{font-size:1.4rem}\
    .sum{display:grid;grid-template-columns:1.25rem 1fr;gap:.75rem .25rem}.bars tr>:first-child{width:42%}\
    .bars .n{padding-left:.3rem}.sum .fig:first-child{grid-column:2}.fig b{font-size:1.75rem;white-space:normal;\
    overflow-wrap:anywhere}.due .fig b{font-size:2.25rem}.op{font-size:1.5rem;line-height:2.1875rem}th,\
    td{padding-left:.3rem;padding-right:.3rem}.opt{display:none}.uses,.uses thead,.uses tbody,.uses tfoot,\
    .uses caption,.payees,.payees thead,.payees tbody,.payees tfoot,.payees caption{display:block}\
    .payees tr{display:grid;grid-template-columns:1fr auto;align-items:baseline;gap:0 .6em;padding:.45rem 0;\
    border-bottom:1px solid var(--line)}.payees tr>*{border:0;padding:0;grid-area:1/1}\
    .payees tr>:nth-child(3){grid-area:2/1;font-size:.8125rem}.payees tr>:nth-child(4){grid-area:2/2;\
    font-size:.8125rem;color:var(--soft)}.payees tr>:nth-child(4)::before{content:\"portions: \"}\
    .payees tr>:nth-child(5){grid-area:1/2}.payees .opt{display:none}.uses thead,\
    .payees thead{position:absolute;width:1px;height:1px;overflow:hidden;clip-path:inset(50%)}\
    .uses tr{display:grid;grid-template-columns:1fr auto auto;align-items:baseline;gap:0 .6em;padding:.45rem 0;\
    border-bottom:1px solid var(--line)}.uses th,.uses td,.uses .work th,.uses .work td{border:0;padding:0;\
    width:auto!important}.uses .work{padding-top:1.4rem;border-bottom-color:var(--rule)}\
    .uses tr>th{grid-area:1/1/2/3}.uses tr>td:last-child{grid-area:1/3;font-size:1rem}\
    .uses tr:not(.work)>td:not(:last-child){color:var(--soft);font-size:.8125rem}\
    .uses tr.neg:not(.work)>td:not(:last-child),.uses tr.neg .code{color:var(--neg)}\
    .uses tr:not(.work)>td:nth-child(1){grid-area:3/2/4/4;text-align:right}\
    .uses tr:not(.work)>td:nth-child(3){grid-area:2/1}.uses tr:not(.work)>td:nth-child(4){grid-area:3/1}\
    .uses tr>td:nth-child(5):not(:last-child){grid-area:2/3}\
    .uses tr>td:nth-child(6):not(:last-child){grid-area:2/2}\
    .uses tr:not(.work)>td:nth-child(1)::before{content:\"row \"}\
    .codes tr:not(.work)>td:nth-child(3)::before{content:\"territory \"}\
    .uses td:nth-child(5):not(:last-child)::before{content:\"of \"}\
    .uses td:nth-child(6):not(:last-child)::after{content:\" %\"}\
    .uses tr.neg:not(.work){background:var(--negwash)}.uses tr.neg:not(.work)>*{background:none}.uses tfoot tr,\
    .payees tfoot tr{border-top:1px solid var(--rule);border-bottom:3px double var(--rule)}}";

/// Print, on A4 and Letter.
const PAPER: &str = "\
    @media print{html{font-size:9.25pt}main,footer,nav{max-width:none;padding:0}nav,footer{display:none}\
    header{padding:0 0 1.5rem}section{margin-top:2.4rem}a{color:inherit;text-decoration:none}\
    h1{font-size:2.3rem}h2,h3,caption,.todo,section>p{break-after:avoid}p,caption,.due,.sum,.facts,.todo,\
    .bars{break-inside:avoid}.bar,.whole,.key,.neg{print-color-adjust:exact;-webkit-print-color-adjust:exact}\
    .uses tr.neg:not(.work)>*{print-color-adjust:exact;-webkit-print-color-adjust:exact}tr{break-inside:avoid}\
    thead{display:table-header-group;break-after:avoid}thead+tbody,\
    thead+tbody>tr:first-child{break-before:avoid}tfoot{display:table-row-group;break-before:avoid}\
    .uses{font-size:.9rem;line-height:1.35}.uses tr:not(.work)>td,.uses tr:not(.work)>th{padding-top:.2rem;\
    padding-bottom:.2rem}.uses thead th{position:static}.uses tbody .work{break-after:avoid}.uses .work+tr,\
    .uses .work+tr+tr{break-before:avoid}.uses tbody tr:last-child{break-before:avoid}\
    .uses .short{break-inside:avoid}.keep{break-inside:avoid}.bars{font-size:.9rem}\
    .payees tr>:nth-child(5){padding-right:0}.screen{display:none}}\
    @page{margin:17mm 16mm 19mm;@bottom-right{font:7.5pt sans-serif;color:#56616c;\
    content:\"Page \" counter(page) \" of \" counter(pages)}}";
