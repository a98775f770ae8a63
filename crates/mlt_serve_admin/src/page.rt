//! The page for a browser.

/// A page in HTML that needs nothing else: it asks for the numbers, the sessions and the waits, twice a second, and puts the answers
/// into the page as text alone, never as HTML.
pub(crate) const PAGE: &str = r#"<!doctype html>
<html lang="en">
<head>
<meta charset="utf-8">
<meta name="viewport" content="width=device-width, initial-scale=1">
<title>mltx</title>
<link rel="icon" href="data:,">
<style>
:root{color-scheme:light dark;--ink:#1c2024;--dim:#60666c;--line:#d9dde1;--ground:#f6f7f8;--card:#fff}
:root{--wait:#b54708;--stop:#b42318;--good:#18794e}
@media(prefers-color-scheme:dark){
:root{--ink:#e8eaec;--dim:#9aa1a8;--line:#363b40;--ground:#131517;--card:#1c1f22}
:root{--wait:#f5a524;--stop:#ff8a80;--good:#4cc38a}
}
*{box-sizing:border-box}
body{margin:0 auto;max-width:64rem;padding:1rem;background:var(--ground);color:var(--ink);font:15px/1.45 system-ui,sans-serif}
header{display:flex;flex-wrap:wrap;gap:.5rem 1rem;align-items:center}
h1{font-size:1.15rem;margin:0}
h2{font-size:1rem;margin:1.4rem 0 .5rem}
#state{flex:1;color:var(--dim)}
#saved{color:var(--dim)}
#save{color:inherit}
#state.gone{color:var(--stop);font-weight:600}
button{font:inherit;padding:.3rem .7rem;color:var(--stop);background:none;border:1px solid;border-radius:.4rem;cursor:pointer}
button:disabled{opacity:.4;cursor:default}
#figures{display:grid;grid-template-columns:repeat(auto-fit,minmax(11rem,1fr));gap:.5rem;margin:1rem 0 0}
#figures div{background:var(--card);border:1px solid var(--line);border-radius:.5rem;padding:.6rem .8rem}
#figures strong{display:block;font-size:1.3rem;line-height:1.3;font-variant-numeric:tabular-nums;white-space:nowrap}
#figures p{position:relative;margin:.5rem 0 0}
#figures svg{width:100%;height:3rem;overflow:visible;border:solid var(--line);border-width:1px 0}
#figures path{stroke:var(--good);vector-effect:non-scaling-stroke}
#figures path+path{stroke:var(--wait)}
#figures i{position:absolute;top:-.55rem;left:0;padding-right:.3rem;background:var(--card)}
#figures i,.axis{font:.75rem system-ui,sans-serif;color:var(--dim)}
.axis{display:flex;justify-content:space-between}
details{margin-top:.5rem}
summary{color:var(--dim);cursor:pointer}
summary+ul{margin-top:.5rem}
dl{display:grid;grid-template-columns:repeat(auto-fill,minmax(9rem,1fr));gap:.5rem;margin:1rem 0 0}
dl div,li{background:var(--card);border:1px solid var(--line);border-radius:.5rem;padding:.45rem .7rem}
#figures>div>span,dt{color:var(--dim);font-size:.82rem}
dd{margin:0;font-size:1.05rem;font-variant-numeric:tabular-nums;overflow-wrap:anywhere}
ul{list-style:none;margin:0;padding:0;display:grid;gap:.5rem}
li p{margin:0;display:flex;flex-wrap:wrap;gap:.1rem .8rem;align-items:baseline}
li button{margin-left:auto;font-size:.85rem;padding:.1rem .55rem}
li code{display:block;margin-top:.3rem;color:var(--dim);font:13px/1.5 ui-monospace,monospace;overflow-wrap:anywhere}
li code:empty,li span:empty{display:none}
li .calls{color:var(--wait)}
li:target{border-color:var(--wait)}
.age{color:var(--dim);font-variant-numeric:tabular-nums}
.none{color:var(--dim);margin:0}
[hidden]{display:none}
#graph{background:var(--card);border:1px solid var(--line);border-radius:.5rem;overflow-x:auto}
#graph .none{padding:.45rem .7rem}
svg{display:block;margin:0 auto}
svg text{font:13px system-ui,sans-serif;fill:var(--ink);text-anchor:middle}
svg .small{font-size:11px;fill:var(--dim)}
svg rect{fill:var(--card);stroke:var(--good);stroke-width:1.5}
svg a:hover rect{stroke-width:3}
svg .waits{stroke:var(--wait)}
svg .turn,svg .page{stroke-dasharray:4 3}
svg path{fill:none;stroke:var(--wait);stroke-width:1.5}
svg marker path{fill:var(--wait);stroke:none}
.gone-all{opacity:.45}
</style>
</head>
<body>
<header>
<h1 id="name">mltx</h1>
<span id="state" role="status">…</span>
<span id="saved" role="status"></span>
<button id="save" hidden>Save the base</button>
<button id="stop">Stop the server</button>
</header>
<main>
<div id="figures"></div>
<h2>Waiting transactions</h2>
<div id="graph"><p class="none"></p></div>
<h2>Sessions</h2>
<ul id="sessions"></ul>
<details id="others" hidden><summary></summary><ul id="idle"></ul></details>
<p id="nobody" class="none" hidden>No client is connected.</p>
<h2>Numbers</h2>
<dl id="counts"></dl>
<p><a href="/metrics">Metrics</a> · <a href="/base?kind=account">Accounts</a> · <a href="/base?kind=counter">Counters</a></p>
</main>
<script>
"use strict";
const at = id => document.getElementById(id);
const make = (tag, attributes, text, node = document.createElement(tag)) => {
  for (const name in attributes) node.setAttribute(name, attributes[name]);
  if (text !== undefined) node.textContent = text;
  return node;
};
const svg = (tag, attributes, text) =>
  make(tag, attributes, text, document.createElementNS("http://www.w3.org/2000/svg", tag));
const count = n => n.toLocaleString("en");
const of = (n, most) => count(n) + (most < 2 ** 53 ? " of " + count(most) : "");
const bytes = n => n < 1e4 ? n + " B" : n < 1e7 ? Math.round(n / 1e3) + " kB" : Math.round(n / 1e6) + " MB";
const time = ms => {
  if (ms < 1000) return ms + " ms";
  const s = Math.floor(ms / 1000);
  if (s < 120) return (ms / 1000).toFixed(s < 10 ? 1 : 0) + " s";
  if (s < 7200) return Math.floor(s / 60) + " min " + s % 60 + " s";
  return Math.floor(s / 3600) + " h " + Math.floor(s % 3600 / 60) + " min";
};

// Nodes remain and only changed text is replaced, so that a button does not vanish during a click.
const put = (node, text) => { if (node.textContent !== text) node.textContent = text; };

// A sample for each look of the last five minutes.
const samples = [];

// The latest sample that is so many seconds older than the last one, or else the oldest.
const before = seconds => samples.findLast(one => one.at < samples.at(-1).at - seconds) || samples[0];

// The bound of the bucket that has this share of the transactions which ended since a sample, in milliseconds.
function quantile(first, last, share) {
  const counts = last.times.counts.map((count, i) => count - first.times.counts[i]);
  const total = counts.reduce((sum, count) => sum + count, 0);
  if (!total) return null;
  let sum = 0;
  const at = counts.findIndex(count => (sum += count) >= total * share);
  return (at < last.times.bounds.length ? last.times.bounds[at] : 2 * last.times.bounds[at - 1]) / 1000;
}

const atMost = ms => ms === null ? "–" : ms < 1 ? ms * 1000 + " µs" : time(ms);

// A figure with a curve for each of these members of the samples. Its scale is what their greatest value is called.
function showFigure(name, text, members, scale) {
  if (!at(name)) {
    const figure = make("div", {id: name}), plot = make("p"), axis = make("p", {class: "axis"});
    const lines = svg("svg", {viewBox: "0 0 60 10", preserveAspectRatio: "none", "aria-hidden": "true"});
    lines.append(...members.map(() => svg("path")));
    plot.append(lines, make("i"));
    axis.append(make("span"), make("span", {}, "now"));
    figure.append(make("span", {}, name), make("strong"), plot, axis);
    at("figures").append(figure);
  }
  put(at(name).querySelector("strong"), text);
  const most = Math.max(...members.flatMap(member => samples.map(one => one[member] || 0)));
  const end = samples.at(-1).at, span = Math.max(60, Math.round(end - samples[0].at));
  put(at(name).querySelector(".axis span"), time(1000 * span) + " ago");
  put(at(name).querySelector("i"), most > 0 ? scale(most) : "");
  members.forEach((member, i) => {
    const points = samples.map(one =>
      `${(60 - 60 * (end - one.at) / span).toFixed(2)} ${(10 - 10 * (one[member] || 0) / (most || 1)).toFixed(2)}`);
    at(name).querySelectorAll("path")[i].setAttribute("d", "M" + points.join("L"));
  });
}

function showFigures(now, waits) {
  const sample = {at: performance.now() / 1000, server: now.server, times: now.transaction_times, blocked: waits.length,
    committed: now.commits, gaveUp: now.gave_up, memory: now.memory};
  if (samples.length && samples[0].server !== now.server) samples.length = 0;
  samples.push(sample);
  while (samples[0].at < sample.at - 300) samples.shift();
  const some = before(2), recent = before(10), passed = sample.at - some.at || 1;
  sample.commits = Math.max(0, sample.committed - some.committed) / passed;
  sample.refusals = Math.max(0, sample.gaveUp - some.gaveUp) / passed;
  sample.half = quantile(recent, sample, .5);
  sample.most = quantile(recent, sample, .99);
  const rounded = n => count(n < 10 ? Math.round(10 * n) / 10 : Math.round(n));
  showFigure("Commits per second", rounded(sample.commits), ["commits"], rounded);
  showFigure("Transaction p50 / p99", atMost(sample.half) + " / " + atMost(sample.most), ["half", "most"], atMost);
  showFigure("Waiting operations", count(sample.blocked), ["blocked"], count);
  showFigure("GaveUp per second", rounded(sample.refusals), ["refusals"], rounded);
  showFigure("Memory", now.memory === null ? "–" : bytes(now.memory), ["memory"], bytes);
}

function showCounts(now) {
  const rows = {
    "Clients": count(now.sessions),
    "Parked": count(now.parked),
    "Queued": count(now.queued),
    "Session threads": count(now.session_threads),
    "Connections": of(now.connections, now.limit),
    "Refused": count(now.refused),
    "Open transactions": count(now.open),
    "Transactions begun": of(now.begun, now.most_begun),
    "Committed": count(now.commits),
    "Aborted": count(now.aborts),
    "Operations": count(now.operations),
    "GaveUp answers": count(now.gave_up),
    "Of these, by deadlock": count(now.deadlocks),
    "NoRoom answers": count(now.no_room),
    "Events": count(now.events),
    "History": count(now.items) + " items",
    "Memory of the history": bytes(now.bytes),
    "Pages": of(now.pages, now.most_pages),
    "Directory depth": count(now.depth),
    "Room in objects": count(now.room),
    "Trace": now.trace_failed ? "could not be written" : now.trace ? "no fault" : "none",
    "Server": String(now.server),
  };
  put(at("name"), "mltx " + now.version + (now.address ? " at " + now.address : ""));
  document.title = at("name").textContent;
  for (const name in rows) {
    if (!at(name)) {
      const row = make("div");
      row.append(make("dt", {}, name), make("dd", {id: name}));
      at("counts").append(row);
    }
    put(at(name), rows[name]);
  }
  at("stop").disabled = now.stopping === 1;
  at("save").hidden = !now.saves;
  put(at("state"), (now.stopping ? "shutting down, after " : "up for ") + time(now.seconds * 1000));
}

function newRow(client) {
  const row = make("li", {id: "client-" + client}), line = make("p"), end = make("button", {}, "End session");
  const text = (tag, name) => make(tag, {class: name});
  end.onclick = () => act("End the session of client " + client + "?", "/sessions/" + client + "/end");
  line.append(make("strong", {}, "Client " + client), text("span", "age address"), text("span", "age since"));
  line.append(text("span", "tx"), text("span", "age work"), end);
  row.append(line, text("code", "did"), text("code", "calls"));
  return row;
}

// When each client was last seen with an open transaction, in milliseconds.
const seen = new Map();

// Clients that had no open transaction for ten seconds are folded, and the first 16 of them listed.
function showSessions(listed, clients) {
  const now = performance.now();
  for (const session of listed) if (session.transaction) seen.set(session.client, now);
  for (const [client, when] of seen) if (when < now - 1e4) seen.delete(client);
  listed.sort((a, b) => a.client - b.client);
  const idle = listed.filter(session => !seen.has(session.client)).slice(0, 16);
  const busy = listed.filter(session => seen.has(session.client));
  const folded = Math.max(clients, listed.length) - busy.length;
  put(at("others").firstChild, count(folded) + " more " + (folded === 1 ? "client" : "clients") + " without an open transaction");
  at("others").hidden = folded === 0;
  at("nobody").hidden = folded + busy.length > 0;
  showRows(at("sessions"), busy);
  showRows(at("idle"), idle);
}

function showRows(list, sessions) {
  const rows = new Set(sessions.map(session => "client-" + session.client));
  for (const row of [...list.children]) if (!rows.has(row.id)) row.remove();
  for (const {client, address, milliseconds, transaction: tx} of sessions) {
    const row = at("client-" + client) || newRow(client);
    if (row.parentNode !== list) list.append(row);
    const show = (name, text) => put(row.querySelector("." + name), text);
    const operations = tx && count(tx.operations) + (tx.operations === 1 ? " operation" : " operations");
    show("address", address || "");
    show("since", time(milliseconds));
    show("tx", tx ? "transaction " + tx.number : "no open transaction");
    show("work", tx ? time(tx.milliseconds) + ", " + operations : "");
    show("did", tx ? (tx.operations > tx.did.length ? "… " : "") + tx.did.join(" · ") : "");
    show("calls", tx && tx.calls ? tx.calls + " …" : "");
  }
}

// A waiting transaction is drawn above the one that it waits for, except in cycles. A row is no wider than the page.
function rowsOf(waits) {
  const rows = new Map();
  for (const wait of waits) for (const tx of [wait.waiter, wait.holder]) rows.set(tx, 0);
  for (let round = 1; round < Math.min(rows.size, 20); round++)
    for (const {waiter, holder} of waits)
      if (rows.get(holder) <= rows.get(waiter))
        rows.set(holder, Math.min(rows.get(waiter) + 1, rows.size - 1));
  const levels = [];
  for (const [tx, row] of [...rows].sort((a, b) => a[0] - b[0])) (levels[row] = levels[row] || []).push(tx);
  const most = Math.max(1, Math.floor(at("graph").clientWidth / 200));
  return levels.flatMap(level => level ? level.map((_, i) => level.slice(i, i + most)).filter((_, i) => i % most === 0) : []);
}

function showWaits(waits, sessions) {
  if (!waits.length) return at("graph").replaceChildren(make("p", {class: "none"}, "No transaction waits."));
  const levels = rowsOf(waits), place = new Map(), halfWidth = 92, halfHeight = 22;
  const width = Math.max(...levels.map(level => level.length)) * 200, height = levels.length * 96;
  levels.forEach((level, row) => level.forEach((tx, i) => place.set(tx, [width * (i + .5) / level.length, 48 + row * 96])));
  const picture = svg("svg", {width, height, role: "img", "aria-label": "Which transaction waits for which"});
  const tip = svg("marker", {id: "tip", refX: 7, refY: 4, markerWidth: 8, markerHeight: 8, orient: "auto"});
  tip.append(svg("path", {d: "M0 0 8 4 0 8z"}));
  picture.append(tip);
  const waiting = new Map(waits.map(wait => [wait.waiter, wait]));
  const open = sessions.filter(session => session.transaction);
  const held = new Map(open.map(session => [session.transaction.number, session.transaction.did]));
  const clients = new Map(open.map(session => [session.transaction.number, session.client]));
  for (const wait of waits) {
    clients.set(wait.waiter, wait.client);
    const [x1, y1] = place.get(wait.waiter), [x2, y2] = place.get(wait.holder);
    const dx = x2 - x1, dy = y2 - y1, far = Math.hypot(dx, dy) || 1;
    const bend = dy > 0 && dy < 100 ? 0 : 60;
    const mx = (x1 + x2) / 2 - dy / far * bend, my = (y1 + y2) / 2 + dx / far * bend;
    const edge = (x, y) => {
      const k = Math.min(halfWidth / Math.max(Math.abs(mx - x), 1), halfHeight / Math.max(Math.abs(my - y), 1));
      return [x + (mx - x) * k, y + (my - y) * k];
    };
    const [ax, ay] = edge(x1, y1), [bx, by] = edge(x2, y2);
    picture.append(svg("path", {class: wait.for, d: `M${ax} ${ay}Q${mx} ${my} ${bx} ${by}`, "marker-end": "url(#tip)"}));
  }
  for (const [tx, [x, y]] of place) {
    const wait = waiting.get(tx), corner = {x: x - halfWidth, y: y - halfHeight, rx: 8};
    const size = {width: 2 * halfWidth, height: 2 * halfHeight};
    const node = clients.has(tx) ? svg("a", {href: '#client-' + clients.get(tx)}) : svg("g");
    const did = held.get(tx) || [];
    const why = wait && wait.for !== "object" ? ", " + wait.for : "";
    const text = wait ? (wait.operation || "no operation") + why + ", " + time(wait.milliseconds) : did[did.length - 1] || "";
    const short = text.length > 28 ? text.slice(0, 27) + "…" : text;
    node.append(svg("title", {}, [...did, ...(wait ? [text] : [])].join("\n") || "no operation"));
    node.append(svg("rect", {class: wait ? "waits" : "", ...corner, ...size}));
    node.append(svg("text", {x, y: short ? y - 3 : y + 5}, "T" + tx + (clients.has(tx) ? " of client " + clients.get(tx) : "")));
    node.append(svg("text", {class: "small", x, y: y + 14}, short));
    picture.append(node);
  }
  at("graph").replaceChildren(picture);
}

async function act(question, path) {
  if (!confirm(question)) return;
  try {
    const answer = await fetch(path, {method: "POST", headers: {"X-Mltx": "1"}});
    if (!answer.ok) alert(await answer.text());
  } catch { alert("The server does not respond."); }
}

async function save() {
  at("save").disabled = true;
  put(at("saved"), "saving …");
  try {
    const answer = await fetch("/save", {method: "POST", headers: {"X-Mltx": "1"}});
    put(at("saved"), answer.ok ? "saved after " + count((await answer.json()).commits) + " commits" : await answer.text());
  } catch { put(at("saved"), "The server does not respond."); }
  at("save").disabled = false;
}

async function look() {
  try {
    const answers = await Promise.all(["/status", "/sessions", "/waits"].map(async path => {
      const answer = await fetch(path, {cache: "no-store", signal: AbortSignal.timeout(3000)});
      return answer.json();
    }));
    at("state").className = document.querySelector("main").className = "";
    showFigures(answers[0], answers[2].waits);
    showCounts(answers[0]);
    showSessions(answers[1].sessions, answers[0].sessions);
    showWaits(answers[2].waits, answers[1].sessions);
  } catch {
    put(at("state"), "The server does not respond. These values are old.");
    at("state").className = "gone";
    document.querySelector("main").className = "gone-all";
    at("stop").disabled = true;
  }
  setTimeout(look, 500);
}

at("save").onclick = save;
at("stop").onclick = () => act("Stop the server? This ends all sessions.", "/stop");
look();
</script>
</body>
</html>
"#;
