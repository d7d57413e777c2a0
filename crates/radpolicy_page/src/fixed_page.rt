//! The fixed parts of the page, which scripts/make-page makes of the files in the crate's folder `page/`.

/// What comes before the lists at the end.
pub const BEFORE_LISTS: &str = "<!doctype html>
<html lang=\"en\">
<head>
<meta charset=\"utf-8\">
<meta http-equiv=\"Content-Security-Policy\" content=\"default-src 'none'; style-src 'sha256-8gDn2WSib/mwPqKT1lA4YblnbDJUu+0rwiOrXqTFyqQ='; script-src 'sha256-qf6EpbYuWOmsAzof3fHqotia/DZtlv+R1Z3r7evSgHQ='; base-uri 'none'; form-action 'none'\">
<meta name=\"viewport\" content=\"width=device-width, initial-scale=1\">
<meta name=\"color-scheme\" content=\"light dark\">
<title>radpolicy: a run, step by step</title>
<style>:root {
  color-scheme: light dark;
  --back: #ffffff; --text: #1c1c1c; --panel: #f3f3f3; --edge: #8a8a8a; --soft: #5a5a5a;
  --at: #ffe08a; --at-text: #1c1c1c; --came: #c9f2c9; --came-text: #0d3d0d; --gone: #f9d2d2; --gone-text: #5c0f0f;
  --focus: #0b57d0;
}
@media (prefers-color-scheme: dark) {
  :root {
    --back: #16181c; --text: #e8e8e8; --panel: #23262c; --edge: #8f96a3; --soft: #a9b0bb;
    --at: #6b5300; --at-text: #fff3cf; --came: #1d4723; --came-text: #d4f5d6; --gone: #5c2326; --gone-text: #ffdcdc;
    --focus: #8ab4f8;
  }
}
* { box-sizing: border-box }
body { margin: 0 auto; padding: 1rem; max-width: 90rem; background: var(--back); color: var(--text);
  font: 1rem/1.45 system-ui, sans-serif }
h1 { font-size: 1.5rem; margin: 0 }
h2 { font-size: 1.1rem; margin: 1rem 0 .3rem }
h3 { font-size: 1rem; margin: .8rem 0 .2rem }
header p { margin: .3rem 0 }
#secrecy, .note { color: var(--soft) }
nav { position: sticky; top: 0; z-index: 1; display: flex; flex-wrap: wrap; gap: .4rem .8rem; align-items: center;
  padding: .5rem 0; background: var(--back); border-bottom: 1px solid var(--edge) }
nav[hidden], main[hidden] { display: none }
button { min-width: 2.6rem; min-height: 2.2rem; font: inherit; color: var(--text); background: var(--panel);
  border: 1px solid var(--edge); border-radius: .3rem }
button:disabled { color: var(--soft) }
#slider { flex: 1 1 12rem; min-width: 8rem; accent-color: var(--focus) }
#step { flex: 1 0 100%; min-height: 1.45em; font-weight: 600; overflow-wrap: anywhere }
:focus-visible { outline: 3px solid var(--focus); outline-offset: 2px }
main { display: grid; grid-template-columns: minmax(0, 1fr) minmax(0, 1fr); gap: 0 1.5rem }
#packet-section { grid-column: 1 / -1 }
ol, ul, pre { margin: 0; padding: .4rem; background: var(--panel); border-radius: .3rem; list-style: none;
  font: .85rem/1.5 ui-monospace, monospace; min-height: 2.1rem }
#policy { max-height: 75vh; overflow: auto }
pre { overflow: auto }
li { display: flex; white-space: pre-wrap; overflow-wrap: anywhere; tab-size: 4; padding: 0 .3rem; border-radius: .2rem }
ul > li { content-visibility: auto; contain-intrinsic-size: auto 1.3rem }
li > :last-child { flex: 1; min-width: 0; text-decoration: none }
.number { flex: none; width: 3.2rem; padding-right: .7rem; text-align: right; color: var(--soft); user-select: none }
.sign { flex: none; width: 1.2rem; user-select: none }
.idle .words { opacity: .62; font-style: italic }
[aria-current] { background: var(--at); color: var(--at-text) }
[aria-current] .number { color: inherit }
.came { background: var(--came); color: var(--came-text) }
.gone { background: var(--gone); color: var(--gone-text) }
.gone > :last-child { text-decoration: line-through }
.wide { overflow: auto }
table { border-collapse: collapse; width: 100% }
th, td { padding: .25rem .5rem; text-align: left; vertical-align: top; border-bottom: 1px solid var(--edge) }
td { font: .85rem/1.5 ui-monospace, monospace; overflow-wrap: anywhere }
td:first-child { overflow-wrap: normal }
@media (max-width: 48rem) { main { grid-template-columns: minmax(0, 1fr) } #policy { max-height: 45vh } }
</style>
</head>
<body>
<header>
<h1>radpolicy: a run, step by step</h1>
<p id=\"result\"></p>
<p id=\"secrecy\" hidden>Passwords and keys, and what the policy copies of them, are shown as (hidden).</p>
</header>
<nav id=\"controls\" aria-label=\"Steps\" hidden>
<div>
<button type=\"button\" id=\"first\" aria-label=\"To the start\">|&lt;</button>
<button type=\"button\" id=\"back\" aria-label=\"One step back\">&lt;</button>
<button type=\"button\" id=\"forward\" aria-label=\"One step forward\">&gt;</button>
<button type=\"button\" id=\"last\" aria-label=\"To the end\">&gt;|</button>
</div>
<label for=\"slider\">Position</label>
<input type=\"range\" id=\"slider\" min=\"0\" max=\"0\" value=\"0\">
<output id=\"step\" for=\"slider\" aria-live=\"polite\"></output>
</nav>
<main id=\"run-shown\" hidden>
<section aria-labelledby=\"policy-heading\">
<h2 id=\"policy-heading\">Policy</h2>
<ol id=\"policy\" tabindex=\"0\" aria-labelledby=\"policy-heading\"></ol>
</section>
<section aria-labelledby=\"lists-heading\">
<h2 id=\"lists-heading\">Lists</h2>
<h3 id=\"request-heading\">request</h3>
<ul id=\"request\" aria-labelledby=\"request-heading\"></ul>
<h3 id=\"reply-heading\">reply</h3>
<ul id=\"reply\" aria-labelledby=\"reply-heading\"></ul>
<h3 id=\"control-heading\">control</h3>
<ul id=\"control\" aria-labelledby=\"control-heading\"></ul>
</section>
<section id=\"packet-section\" aria-labelledby=\"packet-heading\">
<h2 id=\"packet-heading\">Reply packet</h2>
<p id=\"packet-note\"></p>
<div class=\"wide\" id=\"packet-frame\" tabindex=\"0\" role=\"region\" aria-labelledby=\"packet-heading\" hidden>
<table id=\"packet\">
<thead><tr><th scope=\"col\">Attribute</th><th scope=\"col\">Octets</th><th scope=\"col\">As text</th></tr></thead>
<tbody id=\"packet-rows\"></tbody>
</table>
</div>
</section>
</main>
<section aria-labelledby=\"end-heading\">
<h2 id=\"end-heading\">Lists at the end of the run</h2>
<pre tabindex=\"0\" aria-labelledby=\"end-heading\">
";

/// What comes between those and the data.
pub const AFTER_LISTS: &str = "</pre>
</section>
<noscript><p>Without scripts this page shows the lists at the end alone.</p></noscript>
<script type=\"application/json\" id=\"run\">";

/// What comes after the data.
pub const AFTER_DATA: &str = "</script>
<script>\"use strict\";
(() => {
  const element = id => document.getElementById(id);
  const data = JSON.parse(element(\"run\").textContent);
  const positions = data.positions, last = positions.length - 1;
  const names = [\"request\", \"reply\", \"control\"];
  const decoder = new TextDecoder();

  // A string has an octet in each character. It is read as UTF-8; only `textContent` ever takes it.
  const text = string => decoder.decode(Uint8Array.from(string, octet => octet.charCodeAt(0)));

  const made = (tag, name, words) => {
    const it = document.createElement(tag);
    if (name) it.className = name;
    if (words !== undefined) it.textContent = words;
    return it;
  };

  // ---- the lists at a position

  // The lists stay as they are: a changed list is a new array. Those of each 128th position are kept, and those which a
  // later position has again.
  const kept = new Map();
  const wanted = new Set(positions.map(position => position[2]).filter(Number.isInteger));

  function after(before, position) {
    if (Number.isInteger(position[2])) return kept.get(position[2]);
    return before.map((list, i) => {
      const [at, gone, ...came] = position[i + 2];
      return gone || came.length ? [...list.slice(0, at), ...came, ...list.slice(at + gone)] : list;
    });
  }

  function keepAll() {
    let lists = [[], [], []];
    positions.forEach((position, k) => {
      lists = after(lists, position);
      if (k % 128 === 0 || wanted.has(k)) kept.set(k, lists);
    });
  }

  function listsAt(k) {
    if (k < 0) return [[], [], []];
    let at = k;
    while (!kept.has(at)) at--;
    let lists = kept.get(at);
    while (at < k) lists = after(lists, positions[++at]);
    return lists;
  }

  // ---- what came and what went

  // The rows of a longest common subsequence; where that is dear, all that went and then all that came.
  function middle(old, now) {
    const n = old.length, m = now.length, rows = [];
    const count = n * m > 250000 ? null : Array.from({ length: n + 1 }, () => new Uint16Array(m + 1));
    if (count) for (let i = n - 1; i >= 0; i--) for (let j = m - 1; j >= 0; j--)
      count[i][j] = old[i] === now[j] ? count[i + 1][j + 1] + 1 : Math.max(count[i + 1][j], count[i][j + 1]);
    let i = 0, j = 0;
    while (i < n || j < m) {
      if (count && i < n && j < m && old[i] === now[j]) { rows.push([\"\", now[j]]); i++; j++; }
      else if (i < n && (!count || j === m || count[i + 1][j] >= count[i][j + 1])) rows.push([\"gone\", old[i++]]);
      else rows.push([\"came\", now[j++]]);
    }
    return rows;
  }

  function rowsOf(old, now) {
    let front = 0, back = 0;
    const most = Math.min(old.length, now.length);
    while (front < most && old[front] === now[front]) front++;
    while (back < most - front && old[old.length - 1 - back] === now[now.length - 1 - back]) back++;
    const same = pair => [\"\", pair];
    return [...now.slice(0, front).map(same),
      ...middle(old.slice(front, old.length - back), now.slice(front, now.length - back)),
      ...now.slice(now.length - back).map(same)];
  }

  const signs = { \"\": \" \", came: \"+\", gone: \"\\u2212\" };
  const tags = { \"\": \"span\", came: \"ins\", gone: \"del\" };

  function row([kind, pair]) {
    const it = made(\"li\", kind);
    it.append(made(\"span\", \"sign\", signs[kind]), made(tags[kind], \"words\", text(pair)));
    return it;
  }

  // ---- the policy

  const lineOf = label => Number((/^(?:line|if|word|enter|commit|rollback) (\\d+)/.exec(label) || [0, 0])[1]);
  const ran = new Set(positions.map(position => lineOf(position[0])));
  const lines = text(data.policy).replace(/\\n$/, \"\").split(\"\\n\");

  // A line without a statement of its own is as the statement after it is, and a closing brace as the one before it.
  const isStatement = line => !/^\\s*(?:#.*|[{}\\s]*(?:else\\b)?[{}\\s]*|update\\b[^{]*\\{?)\\s*(?:#.*)?$/.test(line);
  const statements = lines.map((line, i) => isStatement(line) ? ran.has(i + 1) : undefined);
  const near = (i, step) => {
    for (let k = i + step; k >= 0 && k < lines.length; k += step) if (statements[k] !== undefined) return statements[k];
    return true;
  };
  const hasRun = i => statements[i] !== undefined ? statements[i] : near(i, /^\\s*\\}\\s*(#.*)?$/.test(lines[i]) ? -1 : 1);

  const policyRows = lines.map((line, i) => {
    const it = made(\"li\", hasRun(i) ? \"\" : \"idle\");
    it.append(made(\"span\", \"number\", i + 1), made(\"span\", \"words\", line));
    return it;
  });

  // ---- the reply packet

  const octetsOf = hex => hex.match(/../g) || [];
  const letter = octet => /^(?:2[0-9a-f]|[3-6][0-9a-f]|7[0-9a-e])$/.test(octet) ? String.fromCharCode(parseInt(octet, 16)) : \".\";

  function packetRow([name, hex], i) {
    const octets = octetsOf(hex), value = octets.slice(2), it = made(\"tr\");
    const words = i < 2 ? \"\" : value.includes(\"..\") ? \"(hidden)\" : value.map(letter).join(\"\");
    it.append(made(\"td\", \"\", text(name)), made(\"td\", \"\", octets.join(\" \")), made(\"td\", \"\", words));
    return it;
  }

  function showPacket() {
    const note = element(\"packet-note\");
    if (data.reply === null) note.textContent = \"No packet was made, since no secret was given (-S).\";
    else if (data.reply === false) note.textContent = \"No packet is sent: the request is an Accounting-Request that was not accepted.\";
    else {
      note.remove();
      element(\"packet-frame\").hidden = false;
      element(\"packet-rows\").replaceChildren(...data.reply.map(packetRow));
    }
  }

  // ---- a position

  let here = 0;

  function show(k) {
    here = Math.max(0, Math.min(last, k));
    const [label, code] = positions[here], line = lineOf(label);
    const before = listsAt(here - 1), now = here ? after(before, positions[here]) : listsAt(0);
    names.forEach((name, i) => element(name).replaceChildren(...rowsOf(here ? before[i] : now[i], now[i]).map(row)));
    policyRows.forEach((it, i) => {
      if (i + 1 === line) it.setAttribute(\"aria-current\", \"step\");
      else it.removeAttribute(\"aria-current\");
    });
    const policy = element(\"policy\"), current = policyRows[line - 1];
    if (current) policy.scrollTop = current.offsetTop - policy.offsetTop - policy.clientHeight / 2;
    element(\"slider\").value = here;
    element(\"slider\").setAttribute(\"aria-valuetext\", `${here} of ${last}: ${label} ${code}`);
    element(\"step\").textContent = `${here} of ${last}: ${label} ${code}`;
    element(\"first\").disabled = element(\"back\").disabled = here === 0;
    element(\"last\").disabled = element(\"forward\").disabled = here === last;
  }

  function go(k) {
    show(k);
    history.replaceState(null, \"\", `#position=${here}`);
  }

  function asked() {
    const found = /^#position=(\\d{1,6})$/.exec(location.hash);
    return found && Number(found[1]) <= last ? Number(found[1]) : 0;
  }

  element(\"first\").addEventListener(\"click\", () => go(0));
  element(\"back\").addEventListener(\"click\", () => go(here - 1));
  element(\"forward\").addEventListener(\"click\", () => go(here + 1));
  element(\"last\").addEventListener(\"click\", () => go(last));
  element(\"slider\").addEventListener(\"input\", event => go(Number(event.target.value)));
  addEventListener(\"hashchange\", () => show(asked()));
  addEventListener(\"keydown\", event => {
    if (event.target.id === \"slider\" || event.altKey || event.ctrlKey || event.metaKey) return;
    const moves = { ArrowLeft: here - 1, ArrowRight: here + 1, Home: 0, End: last };
    if (!(event.key in moves)) return;
    event.preventDefault();
    go(moves[event.key]);
  });

  keepAll();
  element(\"policy\").replaceChildren(...policyRows);
  element(\"slider\").max = last;
  element(\"result\").textContent = `${last} steps, result ${positions[last][1]}`;
  element(\"secrecy\").hidden = !data.hidden;
  showPacket();
  element(\"controls\").hidden = false;
  element(\"run-shown\").hidden = false;
  show(asked());
})();
</script>
</body>
</html>
";
