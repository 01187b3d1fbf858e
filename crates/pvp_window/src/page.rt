//! The console's page, made of console/console.html by .ci/console.

/// The page.
pub const CONSOLE: &[u8] = b"<!doctype html>\n\
<html lang=\"en\">\n\
<head>\n\
<meta charset=\"utf-8\">\n\
<meta name=\"viewport\" content=\"width=device-width, initial-scale=1\">\n\
<title>Gauzemarl</title>\n\
<style>\n\
:root{color-scheme:light dark;\n\
--back:light-dark(#f3f4f6,#111519);--panel:light-dark(#fff,#191f25);--line:light-dark(#dde1e5,#2b343c);\n\
--ink:light-dark(#1a2128,#e3e8ec);--dim:light-dark(#566270,#9aa7b2);\n\
--ok:light-dark(#1d6b45,#6fd0a0);--warn:light-dark(#7d5100,#e9bb5d);--bad:light-dark(#a8201a,#ff8f86);--bar:light-dark(#3f6ea5,#6fa0d8)}\n\
*{box-sizing:border-box}\n\
body{margin:0;background:var(--back);color:var(--ink);font:13px/1.4 system-ui,\"Segoe UI\",\"DejaVu Sans\",sans-serif}\n\
header{display:flex;flex-wrap:wrap;gap:6px 20px;align-items:center;padding:8px 14px;background:var(--panel);border-bottom:1px solid var(--line)}\n\
h1,h2,p{margin:0;font-size:1em}\n\
h1{font-size:1.2em}\n\
b,tbody th{font-weight:600}\n\
b,td{font-variant-numeric:tabular-nums}\n\
.n,.flat{white-space:nowrap}\n\
.dim,thead th,.over{color:var(--dim);font-weight:400}\n\
.far{margin-left:auto}\n\
button{font:inherit;color:inherit;background:var(--back);border:1px solid var(--line);border-radius:4px;padding:2px 8px}\n\
:focus-visible{outline:2px solid var(--bar);outline-offset:-1px}\n\
.pill{display:inline-block;padding:0 7px;border-radius:3px;font-weight:600;white-space:nowrap;background:color-mix(in srgb,currentColor 13%,transparent)}\n\
.ok{color:var(--ok)}\n\
.warn{color:var(--warn)}\n\
.bad,.below{color:var(--bad)}\n\
main,main>div{display:grid;gap:10px;min-width:0}\n\
main{padding:10px 14px;align-items:start;grid-template-columns:minmax(435px,4fr) minmax(640px,7fr) minmax(380px,4fr)}\n\
section{background:var(--panel);border:1px solid var(--line);border-radius:5px;min-width:0;overflow:hidden}\n\
.top{display:flex;flex-wrap:wrap;gap:2px 10px;align-items:baseline;padding:6px 10px;border-bottom:1px solid var(--line)}\n\
.scroll{overflow:auto;max-height:270px}\n\
#members-box{max-height:max(360px,100vh - 400px)}\n\
#entries-box{max-height:max(270px,100vh - 560px)}\n\
table{border-collapse:collapse;width:100%}\n\
caption,#said{position:absolute;width:1px;height:1px;overflow:hidden;clip-path:inset(50%)}\n\
th,td{padding:3px 6px;text-align:left;vertical-align:baseline;border-bottom:1px solid var(--line)}\n\
tr>:first-child{padding-left:10px}\n\
tr>:last-child{padding-right:10px}\n\
.n.n{text-align:right}\n\
.flat{width:1%}\n\
tbody tr:last-child>*{border-bottom:0}\n\
thead th,#members th{position:sticky;left:0;background:var(--panel)}\n\
thead th{top:0;left:auto;z-index:1;white-space:nowrap;font-size:.92em}\n\
.use{display:flex;gap:5px;align-items:center;justify-content:flex-end;font-size:.85em;height:1.1em;color:var(--dim)}\n\
.bar{display:inline-block;flex:1;min-width:36px;max-width:76px;height:4px;border-radius:2px;background:var(--line);overflow:hidden}\n\
.bar i{display:block;height:100%;background:var(--bar)}\n\
.high i{background:var(--bad)}\n\
header .bar{width:110px;height:6px;max-width:none;vertical-align:middle}\n\
#rates{display:flex;justify-content:flex-end;align-items:flex-end;height:56px;padding:4px 10px 0;overflow:hidden}\n\
#rates i{flex:0 0 .8333%;background:var(--bar)}\n\
@media (max-width:1540px){main{grid-template-columns:minmax(410px,4fr) minmax(570px,7fr)}\n\
\x20 #third{grid-column:1 / 3;grid-template-columns:4fr 7fr;align-items:start} #entries-box{max-height:270px}}\n\
@media (max-width:1060px){main,#third{grid-template-columns:minmax(0,1fr)} #third{grid-column:auto}}\n\
@media (max-width:700px){#pairs .flat{white-space:normal}}\n\
@media (min-width:2200px){body{font-size:16px}}\n\
</style>\n\
</head>\n\
<body>\n\
<header>\n\
<h1>Gauzemarl</h1>\n\
<p id=\"state\" class=\"pill warn\" role=\"status\">starts</p>\n\
<p><span class=\"dim\">view</span> <b id=\"view\"></b></p>\n\
<p><span class=\"dim\">primary</span> <b id=\"primary\"></b></p>\n\
<p><span class=\"dim\">log</span> <b id=\"log\"></b> <span id=\"full\"></span> <span class=\"dim\" id=\"room\"></span></p>\n\
<p class=\"dim far\" id=\"read\"></p>\n\
<button id=\"pause\" type=\"button\" aria-pressed=\"false\">Pause</button>\n\
</header>\n\
<p id=\"said\" aria-live=\"polite\"></p>\n\
<main><div id=\"first\"></div><div id=\"second\"></div><div id=\"third\"></div></main>\n\
<script>\n\
const EVERY = 1000, OFTEN = 250, LATE = 1500, ROWS = 65535, RESERVE = 57343, SHOWN = 100;\n\
const $ = id => document.getElementById(id);\n\
const windows = [];       // {place, base, status, seen}; the first is the one that this page came from\n\
const alerts = new Map(); // {level, text, over, at} by cause\n\
const books = [];         // {actor, row, text} of the last books\n\
let book = null, bookSeen = 0, same = '', entries = [], known = 0, rates = [], last = null, turn = 0, said = [], paused = false, drawn = 0, since = 0;\n\
\n\
// --- Writing ---\n\
\n\
const number = it => String(it).replace('-', '\\u2212').replace(/\\B(?=(\\d{3})+$)/g, ',');\n\
const cell = it => ['td', 'n', number(it)];\n\
const line = (name, ...cells) => ['tr', '', ['th', '', name], ...cells];\n\
const write = (id, text) => { if ($(id).textContent !== text) $(id).textContent = text; };\n\
\n\
// an element of [tag, class, what is in it ..], where an object has properties\n\
function built([tag, look, ...parts]) {\n\
\x20 const made = document.createElement(tag);\n\
\x20 if (look) made.className = look;\n\
\x20 if (tag === 'th') made.scope = 'row';\n\
\x20 for (const it of parts) {\n\
\x20   if (Array.isArray(it)) made.append(built(it));\n\
\x20   else if (typeof it !== 'object') made.append(document.createTextNode(it));\n\
\x20   else if (it.style) Object.assign(made.style, it.style);\n\
\x20   else Object.assign(made, it);\n\
\x20 }\n\
\x20 return made;\n\
}\n\
\n\
// puts these elements there, and leaves those that are the same\n\
function fill(id, rows) {\n\
\x20 const home = $(id);\n\
\x20 rows.forEach((row, at) => {\n\
\x20   const text = JSON.stringify(row), old = home.children[at];\n\
\x20   if (old && old.made === text) return;\n\
\x20   const made = Object.assign(built(row), { made: text });\n\
\x20   if (old) old.replaceWith(made); else home.append(made);\n\
\x20 });\n\
\x20 while (home.children.length > rows.length) home.lastElementChild.remove();\n\
}\n\
\n\
// heads of columns, which stand at the right where they begin with a blank\n\
const heads = (id, words) => fill(id + '-head', [['tr', '', ...words.map(it => ['th', it[0] === ' ' ? 'n' : '', { scope: 'col' }, it.trim()])]]);\n\
\n\
// a part of the page: its heading with a note, and a table\n\
function panel(column, id, title, words) {\n\
\x20 $(column).append(built(['section', '', ['div', 'top', ['h2', '', title], ['span', 'dim', { id: id + '-note' }]],\n\
\x20   ['div', 'scroll', { id: id + '-box', tabIndex: 0, role: 'group', ariaLabel: title },\n\
\x20     ['table', '', ['caption', '', title], ['thead', '', { id: id + '-head' }], ['tbody', '', { id }]]]]));\n\
\x20 if (words) heads(id, words);\n\
}\n\
\n\
// --- Reading ---\n\
\n\
// a token stands behind the # of the page's address, which no browser sends\n\
const token = () => location.hash.length > 1 ? { authorization: 'Bearer ' + location.hash.slice(1) } : {};\n\
\n\
async function read(base, path) {\n\
\x20 const answer = await fetch(base + path, { cache: 'no-store', headers: token(), signal: AbortSignal.timeout(LATE - 100) });\n\
\x20 raise('token', 'bad', (answer.status === 401 || answer.status === 403) && 'a token is needed: this address, # and the token of OP');\n\
\x20 if (!answer.ok) throw answer;\n\
\x20 return answer.text();\n\
}\n\
\n\
const seconds = since => Math.floor((Date.now() - since) / 1000);\n\
const isOn = () => !paused && !document.hidden;\n\
const isGone = it => Date.now() - Math.max(it.seen, since) > LATE;\n\
const isSite = it => !it.status || it.status.kind === 'site';\n\
const nameOf = it => it.status ? it.status.actor : it.place;\n\
const normal = () => windows.filter(it => it.status?.status === 'normal' && !isGone(it)).sort((a, b) => b.status.row - a.status.row);\n\
\n\
// does this once a second while the page is seen\n\
async function each(does) {\n\
\x20 for (;;) {\n\
\x20   const begun = Date.now();\n\
\x20   if (isOn()) await does().catch(() => {});\n\
\x20   await new Promise(go => setTimeout(go, Math.max(50, begun + EVERY - Date.now())));\n\
\x20 }\n\
}\n\
\n\
function watch(place, base) {\n\
\x20 const it = { place, base, status: null, seen: 0 };\n\
\x20 windows.push(it);\n\
\x20 each(async () => {\n\
\x20   it.status = JSON.parse(await read(base, '/status'));\n\
\x20   it.seen = Date.now();\n\
\x20 });\n\
}\n\
\n\
async function findWindows() {\n\
\x20 for (const place of JSON.parse(await read('', '/windows')).windows) {\n\
\x20   if (!windows.some(it => it.place === place)) watch(place, 'http://' + place);\n\
\x20 }\n\
}\n\
\n\
// the book of a site; the last ones are kept, since two of one row have to be the same\n\
async function readBook(site) {\n\
\x20 const whole = await read(site.base, '/book'), shown = JSON.parse(whole), { actor, row } = shown, text = whole.slice(whole.indexOf('\"row\":'));\n\
\x20 for (const it of books.filter(it => it.row === row && it.actor !== actor)) {\n\
\x20   if (it.text === text) same = `; row ${number(row)} the same at ${it.actor} and ${actor}`;\n\
\x20   else raise('books', 'bad', `the books of ${it.actor} and ${actor} differ at row ${number(row)}`);\n\
\x20 }\n\
\x20 if (books.push({ actor, row, text }) > 20) books.shift();\n\
\x20 return shown;\n\
}\n\
\n\
async function look() {\n\
\x20 if (windows.length === 1) findWindows().catch(() => {});\n\
\x20 const [first, ...others] = normal();\n\
\x20 if (!first) return;\n\
\x20 if (others.length) readBook(others[turn++ % others.length]).catch(() => {});\n\
\x20 const shown = await readBook(first), now = Date.now();\n\
\x20 if (book && shown.row < book.row) {\n\
\x20   if (now - bookSeen < 5 * EVERY) return; // a site that is behind\n\
\x20   [entries, known, rates, last] = [[], 0, [], null];\n\
\x20 }\n\
\x20 [book, bookSeen] = [shown, now];\n\
\x20 if (last) rates = [...rates, (book.row - last.row) * 1000 / (now - last.now)].slice(-120);\n\
\x20 last = { row: book.row, now };\n\
\x20 known = Math.max(known, book.accepted - SHOWN);\n\
\x20 try {\n\
\x20   const news = JSON.parse(await read(first.base, '/entries?from=' + known));\n\
\x20   known = news.from + news.entries.length;\n\
\x20   entries = news.entries.reverse().concat(entries).slice(0, SHOWN);\n\
\x20 } finally { drawBook(); }\n\
}\n\
\n\
// --- The three tests ---\n\
\n\
// how much a member uses of each limit, with these amounts added to its balances\n\
function tests(member, added = {}) {\n\
\x20 let short = 0n, has = 0n, lacks = 0n;\n\
\x20 const all = member.balances.map(it => {\n\
\x20   const rule = book.currencies.find(its => its.code === it.currency), rate = BigInt(rule.rate), cut = BigInt(rule.haircut);\n\
\x20   const held = BigInt(it.balance) + (added[it.currency] || 0n), used = held < 0n ? -held : 0n;\n\
\x20   if (held > 0n) has += held * rate * (10000n - cut);\n\
\x20   short += used * rate;\n\
\x20   lacks += used * rate * (10000n + cut);\n\
\x20   return { name: `short ${it.currency}`, held, used, limit: BigInt(it.short), unit: 1n };\n\
\x20 });\n\
\x20 return [...all, { name: 'aggregate', held: short, used: short, limit: BigInt(member.aggregate), unit: 1n },\n\
\x20   { name: 'value', held: (has - lacks) / 10000n, used: lacks, limit: has, unit: 10000n }];\n\
}\n\
\n\
// the used part of a limit, in tenths of a per cent\n\
const part = it => it.used === 0n ? 0 : it.used > it.limit ? 1001 : Number(it.used * 1000n / it.limit);\n\
\n\
// which tests a member fails, and by how much; nothing where it passes\n\
function fails(name, added) {\n\
\x20 const failed = tests(book.members.find(it => it.name === name), added).filter(it => it.used > it.limit);\n\
\x20 return failed.length ? [`${name} fails ` + failed.map(it => `${it.name} by ${number((it.used - it.limit + it.unit - 1n) / it.unit)}`).join(', ')] : [];\n\
}\n\
\n\
// each matched pair with what fails, as the next settle tries them: a pair that passes counts for those behind it\n\
function tried() {\n\
\x20 const moved = {};\n\
\x20 return book.queue.map(it => {\n\
\x20   const sold = BigInt(it.sell_amount), bought = BigInt(it.buy_amount);\n\
\x20   const after = [[it.first, -sold, bought], [it.second, sold, -bought]].map(([name, sell, buy]) => {\n\
\x20     const old = moved[name] || {};\n\
\x20     return [name, { ...old, [it.sell]: (old[it.sell] || 0n) + sell, [it.buy]: (old[it.buy] || 0n) + buy }];\n\
\x20   });\n\
\x20   const why = after.flatMap(([name, added]) => fails(name, added));\n\
\x20   if (!why.length) Object.assign(moved, Object.fromEntries(after));\n\
\x20   return { ...it, why };\n\
\x20 });\n\
}\n\
\n\
// --- Alerts ---\n\
\n\
// a cause is raised once, and stays in the list when it is over\n\
function raise(cause, level, text) {\n\
\x20 const old = alerts.get(cause);\n\
\x20 if (!text) { if (old) old.over = true; return; }\n\
\x20 if (old && !old.over) { Object.assign(old, { level, text }); return; }\n\
\x20 alerts.delete(cause);\n\
\x20 alerts.set(cause, { level, text, over: false, at: new Date().toLocaleTimeString('en-GB') });\n\
\x20 said.push(text);\n\
}\n\
\n\
function judge(sites, up, of, primary, log) {\n\
\x20 if (windows.some(it => !it.status && !isGone(it))) return;\n\
\x20 for (const it of windows) {\n\
\x20   const gone = isGone(it), status = it.status?.status || 'normal';\n\
\x20   raise('gone ' + it.place, 'bad', gone && `${nameOf(it)} does not answer`);\n\
\x20   raise('not ' + it.place, 'warn', !gone && status !== 'normal' && `${nameOf(it)} is not normal: ${status}`);\n\
\x20 }\n\
\x20 const least = (of + 1) / 2, lost = sites.length >= of && !up.some(it => nameOf(it) === primary);\n\
\x20 raise('primary', 'bad', !up.length ? 'no primary: no site is normal' : lost && `no primary: ${primary} is not there`);\n\
\x20 raise('still', 'bad', sites.length >= of && up.length < least && `${up.length} of ${of} sites are normal, and the bank takes ${least}`);\n\
\x20 raise('log', 'bad', log > RESERVE && `the log is nearly full: ${number(ROWS - log)} of ${number(ROWS)} rows are left`);\n\
}\n\
\n\
const judgeMember = it => tests(it).forEach(its => raise(`${it.name} ${its.name}`, 'warn',\n\
\x20 part(its) > 900 && `${it.name} at ${Math.floor(part(its) / 10)} % of ${its.name}`));\n\
\n\
// --- Drawing ---\n\
\n\
const SIGNS = { ok: '\\u25cf ', warn: '\\u25b2 ', bad: '\\u2716 ' };\n\
const bar = (isHigh, width) => ['span', isHigh ? 'bar high' : 'bar', ['i', '', { style: { width: width + '%' } }]];\n\
const pill = (level, word) => ['span', 'pill ' + level, SIGNS[level] + word];\n\
\n\
function drawSite(it, primary) {\n\
\x20 const at = it.status || { status: 'asked' }, gone = isGone(it), word = gone ? 'gone' : at.status || at.kind;\n\
\x20 const level = gone || word === 'down' ? 'bad' : word === 'normal' || !isSite(it) ? 'ok' : 'warn';\n\
\x20 const shown = at.streams ? [at.view, at.row, at.log, at.streams.reduce((sum, its) => sum + its.waiting_bytes, 0)] : ['', '', '', ''];\n\
\x20 const more = gone && it.seen ? ` ${seconds(it.seen)} s` : at.actor === primary ? ' primary' : '';\n\
\x20 return line(nameOf(it), ['td', 'flat', pill(level, word), more], ...shown.map(cell));\n\
}\n\
\n\
function drawStreams(sites) {\n\
\x20 const hearing = sites.filter(it => it.status && !isGone(it)).map(it => it.status).sort((a, b) => a.actor.localeCompare(b.actor));\n\
\x20 const all = book ? [...book.currencies.map(it => it.code), 'OP', ...book.members.map(it => it.name)] : [];\n\
\x20 const names = new Set([...sites.map(nameOf).sort(), ...all, ...hearing.flatMap(it => it.streams.map(its => its.actor))]);\n\
\x20 heads('streams', ['Actor', ...hearing.map(it => ` at ${it.actor}`)]);\n\
\x20 fill('streams', [...names].map(name => line(name, ...hearing.map(it => {\n\
\x20   const stream = it.streams.find(its => its.actor === name), bytes = stream?.waiting_bytes;\n\
\x20   return ['td', 'n', stream ? (bytes ? number(bytes) + ' B ' : '') + '\\u2713' : it.actor === name ? '' : 'no'];\n\
\x20 }))));\n\
}\n\
\n\
function drawAlerts() {\n\
\x20 const all = [...alerts.values()].reverse().sort((a, b) => a.over - b.over || a.level.localeCompare(b.level)), open = all.filter(it => !it.over).length;\n\
\x20 write('alerts-note', open ? `${open} open` : 'none open');\n\
\x20 document.title = (open ? `(${open}) ` : '') + 'Gauzemarl';\n\
\x20 if (said.length) write('said', said.splice(0).join('; '));\n\
\x20 fill('alerts', all.slice(0, 40).map(it => ['tr', it.over ? 'over' : '', ['td', 'flat', it.at],\n\
\x20   ['td', 'flat', it.over ? 'over' : pill(it.level, it.level === 'bad' ? 'alarm' : 'notice')], ['td', '', it.text]]));\n\
}\n\
\n\
function draw() {\n\
\x20 if (!isOn()) return;\n\
\x20 const now = Date.now();\n\
\x20 if (now - drawn > 2 * OFTEN) since = now; // it rested\n\
\x20 drawn = now;\n\
\x20 const sites = windows.filter(isSite), up = normal().sort((a, b) => b.status.view - a.status.view);\n\
\x20 const told = sites.flatMap(it => it.status || []), of = Math.max(sites.length, ...told.map(it => it.sites)), log = Math.max(0, ...told.map(it => it.log));\n\
\x20 const primary = up.length ? up[0].status.primary : 'none';\n\
\x20 judge(sites, up, of, primary, log);\n\
\x20 const bad = [...alerts.values()].some(it => !it.over && it.level === 'bad');\n\
\x20 const level = alerts.get('primary')?.over === false || log >= ROWS ? 'bad' : up.length < of || bad ? 'warn' : 'ok';\n\
\x20 $('state').className = 'pill ' + level;\n\
\x20 write('state', SIGNS[level] + (log >= ROWS ? 'the log is full' : level === 'bad' ? 'no primary' : `serves, ${up.length} of ${of} sites`));\n\
\x20 write('view', up.length ? number(up[0].status.view) : 'none');\n\
\x20 write('primary', primary);\n\
\x20 write('log', number(log));\n\
\x20 fill('full', [bar(log > RESERVE, log / ROWS * 100)]);\n\
\x20 write('room', `of ${number(ROWS)}, ${Math.floor(log / ROWS * 100)} %`);\n\
\x20 write('sites-note', `${sites.filter(it => !isGone(it)).length} of ${of} answer`);\n\
\x20 fill('sites', [...windows].sort((a, b) => isSite(b) - isSite(a) || nameOf(a).localeCompare(nameOf(b))).map(it => drawSite(it, primary)));\n\
\x20 drawStreams(sites);\n\
\x20 drawAlerts();\n\
\x20 if (book) write('read', `row ${number(book.row)} of ${book.actor}, ${seconds(bookSeen)} s ago${same}`);\n\
}\n\
\n\
function drawRates() {\n\
\x20 const most = Math.max(1, ...rates), mean = rates.reduce((sum, it) => sum + it, 0) / rates.length, left = Math.ceil((ROWS - book.row) / mean / 60);\n\
\x20 write('rates-note', rates.length ? `${rates.at(-1).toFixed(1)} now, at most ${most.toFixed(1)}${left < 120 ? `; the log is full in ${left} min` : ''}` : '');\n\
\x20 fill('rates', rates.map(it => ['i', '', { style: { height: (it / most * 100).toFixed(1) + '%' } }]));\n\
}\n\
\n\
function drawMember(it) {\n\
\x20 return line(it.name, ...tests(it).map(its => {\n\
\x20   const used = part(its), use = used ? [bar(used > 900, used / 10), used > 1000 ? 'over' : Math.floor(used / 10) + ' %'] : [];\n\
\x20   return ['td', 'n', ['span', its.held < 0n ? 'below' : '', number(its.held)], ['span', 'use', ...use]];\n\
\x20 }));\n\
}\n\
\n\
function drawPair(it) {\n\
\x20 const side = (who, code, amount) => ['td', 'flat', `${who} ${code} ${number(amount)}`];\n\
\x20 const why = it.why.length ? [pill('warn', 'waits'), ' ' + it.why.join('; ')] : [pill('ok', 'passes'), ' settles at the next settle'];\n\
\x20 return line(it.reference, side(it.first, it.sell, it.sell_amount), side(it.second, it.buy, it.buy_amount), ['td', '', ...why]);\n\
}\n\
\n\
function drawBook() {\n\
\x20 const first = all => number(all) + (all > SHOWN ? `, the first ${SHOWN} of which are here` : '');\n\
\x20 book.members.forEach(judgeMember);\n\
\x20 drawRates();\n\
\x20 fill('counts', [['tr', '', ...Object.values(book.pairs).map(cell)]]);\n\
\x20 fill('figures', book.currencies.map(it => line(it.code, cell(it.figure), cell(it.orders), cell(it.rate), ['td', 'n', it.haircut / 100 + ' %'])));\n\
\x20 heads('members', ['Member', ...book.currencies.map(it => ' ' + it.code), ' Aggregate', ' Value']);\n\
\x20 fill('members', book.members.map(drawMember));\n\
\x20 write('pairs-note', first(book.pairs.matched));\n\
\x20 fill('pairs', tried().map(drawPair));\n\
\x20 write('orders-note', first(book.open));\n\
\x20 fill('orders', book.open_orders.map(it => line(`${it.currency} ${it.order}`, ['td', '', it.member], cell(it.amount))));\n\
\x20 write('entries-note', `${number(book.accepted)} of ${number(book.row)} rows were accepted`);\n\
\x20 fill('entries', entries.map(([at, who, command, answer]) => line(number(at), ['td', '', who], ['td', '', command], ['td', 'flat', answer])));\n\
}\n\
\n\
panel('first', 'sites', 'Sites', ['Site', 'Status', ' View', ' Row', ' Log', ' Waiting']);\n\
panel('first', 'alerts', 'Alerts', ['Since', 'Level', 'What']);\n\
$('first').append(built(['section', '', ['div', 'top', ['h2', '', 'Rows a second'], ['span', 'dim', { id: 'rates-note' }]], ['div', '', { id: 'rates', ariaHidden: true }]]));\n\
panel('first', 'streams', 'Who hears whom');\n\
panel('second', 'members', 'Members');\n\
panel('second', 'pairs', 'Matched pairs', ['Pair', 'First sells', 'Second sells', 'Tests']);\n\
panel('third', 'counts', 'Pairs', [' Unmatched', ' Matched', ' Settled', ' Rescinded']);\n\
panel('third', 'figures', 'Figures', ['Currency', ' Figure', ' Orders', ' Rate', ' Haircut']);\n\
panel('third', 'orders', 'Orders on the way', ['Order', 'Member', ' Amount']);\n\
panel('third', 'entries', 'Last commands', ['Number', 'Who', 'Command', 'Answer']);\n\
write('members-note', 'balances, and how much of each limit they use');\n\
\n\
$('pause').onclick = () => {\n\
\x20 paused = !paused;\n\
\x20 write('pause', paused ? 'Go on' : 'Pause');\n\
\x20 $('pause').setAttribute('aria-pressed', paused);\n\
};\n\
watch(location.host, '');\n\
each(look);\n\
setInterval(draw, OFTEN);\n\
</script>\n\
</body>\n\
</html>\n\
";

/// What the page may do: run its own script and have its own style, and nothing else.
pub const SUMS: &str =
    "default-src 'none'; script-src 'sha256-mYt7NkRfS2t2eWGCMx8tf0Jwc5evgj8w1xQpzh+RJIY='; style-src 'sha256-BK/z5zjEvSi1ug/yZ33xfuWcM7MAu0CJDAcEluwHzic='; base-uri 'none'; form-action 'none'; frame-ancestors 'none'";
