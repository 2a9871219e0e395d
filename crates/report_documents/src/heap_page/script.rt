//! The script of a page.

/// The text of its element.
pub(crate) const SCRIPT: &str = "
'use strict';
const data = JSON.parse(document.getElementById('data').textContent);
const run = data.run, calls = data.calls, code = data.code, steps = data.steps;
const GRANULE = 16, ROW = 32, WINDOW = 20, AROUND = 8, MOST_PRINTED = 160;
const NOTHING = -1, UNMAPPED = -3;
const LIVE = 1, FREED = 2, HEADER = 3;
const find = name => document.getElementById(name);
const hex = number => '0x' + number.toString(16);

// A text with the code of each character that is not printable ASCII.
function shown(text) {
  const parts = Array.from(String(text), letter => {
    const code = letter.codePointAt(0);
    return code >= 32 && code < 127 ? letter
      : String.fromCharCode(92) + 'u{' + code.toString(16) + '}';
  });
  return parts.join('');
}

function put(parent, name, text, kind) {
  const made = document.createElement(name);
  if (text !== undefined) made.textContent = shown(text);
  if (kind) made.className = kind;
  parent.appendChild(made);
  return made;
}

// Rows of granules, and the number of the cell at an address, or -1.
const rows = data.rows.map(row => Number(row[0]));
const rowIndex = new Map(rows.map((address, index) => [address, index]));
function cellAt(address) {
  const start = address - address % (ROW * GRANULE), index = rowIndex.get(start);
  return index === undefined ? -1 : index * ROW + Math.floor((address - start) / GRANULE);
}
const plain = text => Number(BigInt(text) & 0xffffffffffffffn);
const atEnd = data.rows.flatMap(row => Array.from(row[1], digit =>
  digit === '.' ? UNMAPPED : parseInt(digit, 16)));

// What happens to cells: at a step, from an address to another, a tag and whose it is.
const changes = [];
function change(step, from, to, tag, state) {
  const cells = [];
  for (let address = from; address < to; address += GRANULE) {
    const cell = cellAt(address);
    if (cell >= 0) cells.push(cell);
    else if (address % (ROW * GRANULE) === 0) address += ROW * GRANULE - GRANULE;
  }
  if (cells.length) changes.push({step, cells, tag, state});
}
const roundUp = number => Math.ceil(number / GRANULE) * GRANULE;

function noteEnd(call, live) {
  const start = plain(call.ended), chunk = live.get(start);
  if (!chunk) return;
  live.delete(start);
  const isSame = call.made !== undefined && plain(call.made) === start;
  if (isSame) change(call.step, start, chunk.end, 0, 0);
  else if (!chunk.block) change(call.step, start, chunk.end, UNMAPPED, FREED);
  else change(call.step, start, chunk.end, call.drawn, FREED);
}
function noteMade(call, live) {
  const start = plain(call.made), end = start + roundUp(Math.max(call.size, 1));
  const block = call.block && {end: plain(call.block) + call.room};
  live.set(start, {end, block});
  if (block) change(call.step, start - GRANULE, start, 0, HEADER);
  change(call.step, start, end, Number(BigInt(call.made) >> 56n & 15n), LIVE);
  if (block && end < block.end) change(call.step, end, end + GRANULE, 0, 0);
}
function noteStores() {
  steps.forEach((text, index) => {
    const found = text.match(/ g([0-9a-f]+)[+]([0-9]+)=([0-9a-f])/);
    if (!found) return;
    const from = plain('0x' + found[1]), to = from + GRANULE * Number(found[2]);
    change(data.first + index, from, to, parseInt(found[3], 16), undefined);
  });
}
function noteAll() {
  const live = new Map();
  for (const call of calls) {
    if (call.ended !== undefined) noteEnd(call, live);
    if (call.made !== undefined) noteMade(call, live);
  }
  noteStores();
  changes.sort((one, other) => one.step - other.step);
}
noteAll();

function heapAt(step) {
  const tags = new Int8Array(atEnd.length).fill(NOTHING), states = new Int8Array(atEnd.length);
  const fresh = new Set();
  for (const it of changes) {
    if (it.step > step) break;
    it.cells.forEach(cell => {
      tags[cell] = it.tag;
      if (it.state !== undefined) states[cell] = it.state;
      if (it.step === step) fresh.add(cell);
    });
  }
  let differ = 0;
  if (step >= run.steps) {
    atEnd.forEach((tag, cell) => {
      if (tags[cell] !== NOTHING && tags[cell] !== tag) differ += 1;
      tags[cell] = tag;
    });
  }
  return {tags, states, fresh, differ};
}

// The steps that can be shown: those of heap calls, and all that are remembered.
const firstStep = steps.length ? data.first : run.steps;
const positions = [...new Set([0, ...calls.map(call => call.step).filter(at => at < firstStep),
  ...steps.map((_, index) => firstStep + index), run.steps])].sort((one, other) => one - other);
let position = positions.length - 1, topRow = 0;

function partsOf(step) {
  const text = steps[step - firstStep];
  if (text === undefined) return null;
  const [index, ...words] = text.split(' ');
  const found = words.map(word => word.match(/^[rw]([0-9a-f]+)[+]([0-9]+)$/)).find(it => it);
  const pointer = found && '0x' + found[1];
  const access = found && {
    tag: Number(BigInt(pointer) >> 56n & 15n), address: plain(pointer), bytes: Number(found[2]),
  };
  return {entry: code[Number(index)], words, access};
}
function whereOf(index) {
  while (index > 0 && code[index][2] === '') index -= 1;
  return code[index][2];
}
const whereAt = step => {
  const text = steps[step - firstStep];
  return text === undefined ? '' : whereOf(Number(text.split(' ')[0]));
};
function didText(parts) {
  const names = {f: 'flags', t: 'generator tag'};
  return parts.words.map(word => {
    const named = word.match(/^([a-z]+[0-9]*)=(.*)$/);
    if (named && named[1][0] !== 'g') {
      const isFlags = named[1] === 'f';
      return (names[named[1]] || named[1]) + ' = ' + (isFlags ? '' : '0x') + named[2];
    }
    const access = word.match(/^([rwg])([0-9a-f]+)[+]([0-9]+)(=.)?$/);
    const verbs = {r: 'reads ', w: 'writes ', g: 'tags '};
    const units = {r: ' bytes at 0x', w: ' bytes at 0x', g: ' granules at 0x'};
    return verbs[access[1]] + access[3] + units[access[1]] + access[2] + (access[4] || '');
  }).join(', ');
}

function callIndex(step) {
  let found = -1;
  calls.forEach((call, index) => { if (call.step <= step) found = index; });
  return found;
}

function showLegend() {
  const legend = find('legend');
  put(legend, 'span', 'A cell is a granule of 16 bytes with its tag: ');
  for (let tag = 0; tag < 16; tag++) {
    put(legend, 'span', tag.toString(16), 'key t' + tag.toString(16));
  }
  put(legend, 'span', ' = in a live chunk, x in one that was freed, h a header, ^ accessed by ' +
    'this step; . not mapped, blank: nothing reached it yet.');
}

function focusCell(parts, call) {
  if (parts && parts.access) {
    const cell = cellAt(parts.access.address);
    if (cell >= 0) return cell;
  }
  const address = call && (call.made || call.ended);
  return address === undefined ? -1 : cellAt(plain(address));
}
function touched(parts) {
  const cells = new Set();
  if (!parts || !parts.access) return cells;
  const {address, bytes} = parts.access, first = address - address % GRANULE;
  for (let at = first; at < address + bytes; at += GRANULE) cells.add(cellAt(at));
  cells.delete(-1);
  return cells;
}
const MARKS = ['', '=', 'x', 'h'], KINDS = ['', 'live', 'freed', 'header'];
const tagText = tag => tag === NOTHING ? '' : tag === UNMAPPED ? '.' : tag.toString(16);

function showCell(line, cell, heap, marked) {
  const tag = heap.tags[cell], state = heap.states[cell];
  const made = put(line, 'td');
  const kinds = [tag >= 0 ? 't' + tag.toString(16) : 'none', KINDS[state]];
  if (heap.fresh.has(cell)) kinds.push('fresh');
  if (marked.has(cell)) kinds.push('touch');
  made.className = kinds.join(' ').trim();
  put(made, 'b', tagText(tag));
  put(made, 'i', (marked.has(cell) ? '^' : '') + MARKS[state]);
  made.title = hex(rows[Math.floor(cell / ROW)] + cell % ROW * GRANULE);
}
function columns() {
  const width = document.documentElement.clientWidth;
  return width >= 960 ? ROW : width >= 540 ? ROW / 2 : ROW / 4;
}
function showHeap(heap, marked, from, to) {
  const table = find('heap'), wide = columns();
  table.replaceChildren();
  for (let row = from; row < to; row++) {
    if (row > from && rows[row] !== rows[row - 1] + ROW * GRANULE) {
      const line = put(table, 'tr');
      put(line, 'th');
      put(line, 'td', '...', 'gap').colSpan = wide;
    }
    for (let start = 0; start < ROW; start += wide) {
      const line = put(table, 'tr');
      put(line, 'th', hex(rows[row] + start * GRANULE)).scope = 'row';
      for (let cell = start; cell < start + wide; cell++) {
        showCell(line, row * ROW + cell, heap, marked);
      }
    }
  }
}

function showCode(step) {
  const body = find('code').tBodies[0];
  body.replaceChildren();
  for (let at = step - AROUND; at <= step + AROUND / 2; at++) {
    const parts = partsOf(at);
    if (!parts) continue;
    const line = put(body, 'tr', undefined, at === step ? 'now' : at > step ? 'later' : '');
    if (at === step) line.setAttribute('aria-current', 'step');
    put(line, 'th', (at === step ? '> ' : '') + at).scope = 'row';
    put(line, 'td', parts.entry[1]);
    put(line, 'td', didText(parts));
    put(line, 'td', whereAt(at));
  }
  if (!body.rows.length) {
    put(put(body, 'tr'), 'td', 'The instructions of this step are not remembered: --last N ' +
      'remembers more.').colSpan = 4;
  }
}
function showCalls(index, isJump) {
  const list = Array.from(find('calls').tBodies[0].rows);
  list.forEach((line, at) => {
    line.className = at === index ? 'now' : at > index ? 'later' : '';
    if (at === index) line.setAttribute('aria-current', 'step');
    else line.removeAttribute('aria-current');
  });
  const area = find('calls-area'), line = list[Math.max(index, 0)];
  if (line && isJump) area.scrollTop = line.offsetTop - area.clientHeight / 2;
}
function describe(step, parts, call) {
  const words = ['Step ' + step + ' of ' + run.steps];
  if (call && call.step === step) words.push('heap call ' + call.number + ': ' + call.text);
  else if (parts) words.push(parts.entry[1], didText(parts));
  if (parts && parts.access && cellAt(parts.access.address) >= 0) {
    words.push('the pointer has tag ' + parts.access.tag.toString(16));
  }
  const where = call && call.step === step ? call.where : whereAt(step);
  if (where) words.push(where);
  return words.filter(word => word).join(' - ');
}

// Shows the rows from `topRow` on, or for print the first ones.
function showRows(isPrinted) {
  const step = positions[position], heap = heapAt(step);
  const from = isPrinted ? 0 : Math.min(topRow, Math.max(0, rows.length - 1));
  const to = Math.min(rows.length, from + (isPrinted ? MOST_PRINTED : WINDOW));
  showHeap(heap, touched(partsOf(step)), from, to);
  find('note').textContent = heap.differ === 0 ? '' : heap.differ + ' granules have a tag at ' +
    'the end that no heap call and no remembered instruction gave them.';
  find('rows').textContent = rows.length === 0 ? 'No heap call made a chunk.'
    : 'Rows ' + (from + 1) + ' to ' + to + ' of ' + rows.length;
  find('up').disabled = from === 0;
  find('down').disabled = to === rows.length;
}
function showControls(step, text) {
  const slider = find('slider');
  slider.value = position;
  slider.setAttribute('aria-valuetext', text);
  find('at').textContent = step + ' of ' + run.steps;
  find('number').value = step;
  find('first').disabled = find('before').disabled = position === 0;
  find('last').disabled = find('after').disabled = position === positions.length - 1;
  find('call-before').disabled = !calls.some(it => it.step < step);
  find('call-after').disabled = !calls.some(it => it.step > step);
}
function show(isPrinted) {
  const step = positions[position], parts = partsOf(step), index = callIndex(step);
  const row = Math.floor(focusCell(parts, calls[index]) / ROW);
  const isSeen = row < 0 || (topRow <= row && row < topRow + WINDOW);
  if (!isSeen) topRow = Math.max(0, row - WINDOW / 2);
  showRows(isPrinted);
  showCalls(index, !isPrinted);
  showCode(step);
  const text = shown(describe(step, parts, calls[index]));
  find('now').textContent = text;
  showControls(step, text);
}

function goTo(index) {
  position = Math.min(Math.max(index, 0), positions.length - 1);
  show(false);
}
function goToStep(step) {
  let found = 0;
  positions.forEach((at, index) => { if (at <= step) found = index; });
  goTo(found);
}
function goToCall(direction) {
  const step = positions[position];
  const call = direction < 0 ? calls.filter(it => it.step < step).pop()
    : calls.find(it => it.step > step);
  if (call) goToStep(call.step);
}
const KEYS = {
  ArrowLeft: () => goTo(position - 1), ArrowRight: () => goTo(position + 1),
  Home: () => goTo(0), End: () => goTo(positions.length - 1),
  PageUp: () => goToCall(-1), PageDown: () => goToCall(1),
};
function onKey(event) {
  const at = event.target;
  const isOwn = at.id === 'number' || (at.className || '').includes('wide');
  const isPlain = !event.ctrlKey && !event.altKey && !event.metaKey && !event.shiftKey;
  if (isOwn || !isPlain || !Object.hasOwn(KEYS, event.key)) return;
  KEYS[event.key]();
  event.preventDefault();
}

function statusText() {
  const status = run.status, words = [status.kind];
  for (const name of ['name', 'code', 'number', 'word', 'address', 'pointer', 'pc']) {
    const label = name === 'name' ? '' : name + ' ';
    if (status[name] !== undefined) words.push(label + status[name]);
  }
  if (status.name === 'TagCheck') {
    words.push('pointer tag ' + status.pointer_tag.toString(16) + ', memory tag ' +
      status.memory_tag.toString(16));
  }
  return words.join(', ');
}
const frameText = frame => (frame.function || frame.address) +
  (frame.file ? ' at ' + frame.file + ':' + frame.line : '');
function showHead() {
  const name = shown(run.image.split('/').pop());
  document.title = 'The heap of ' + name;
  find('title').textContent = 'The heap of ' + name;
  find('run').textContent = run.steps + ' steps' + (run.seed ? ', seed ' + run.seed : '') +
    ', exit status ' + run.exit_status;
  find('told').textContent = shown(run.cause || statusText());
  if (run.cause) find('story').textContent = shown(statusText());
  showStack(find('stack'), run);
  run.chunks.forEach((chunk, index) => {
    const front = index === 0 ? '' : 'its block was given again, as a chunk of ' + chunk.size +
      ' bytes, ';
    showRelated(front + 'allocated', chunk.allocated);
    if (chunk.freed) showRelated('freed', chunk.freed);
  });
  showCallList();
}
// The calls that led to something; those in front of the user's are a library's.
function showStack(list, led) {
  led.stack.forEach((frame, index) => {
    put(list, 'li', frameText(frame), index < led.user ? 'library' : '');
  });
}
function showRelated(verb, call) {
  const item = put(find('chunks'), 'li', verb + ' by call ' + call.number + ', ' + call.call +
    ' = ' + call.result + ', step ' + call.step);
  const list = put(item, 'ol');
  list.start = 0;
  showStack(list, call);
}
function showCallList() {
  const made = find('calls').tBodies[0];
  for (const call of calls) {
    const line = put(made, 'tr'), head = put(line, 'th');
    head.scope = 'row';
    const button = put(head, 'button', call.step);
    button.type = 'button';
    button.onclick = () => goToStep(call.step);
    put(line, 'td', call.number);
    put(line, 'td', call.text);
    put(line, 'td', call.where || '');
  }
  if (data.made > calls.length) {
    find('left-out').textContent = 'Of ' + data.made + ' heap calls the last are here, and of ' +
      'those before them some that made a chunk which was live then.';
  }
}

showHead();
showLegend();
find('slider').max = positions.length - 1;
find('number').max = run.steps;
find('slider').oninput = event => goTo(Number(event.target.value));
find('number').onchange = event => goToStep(Number(event.target.value));
find('first').onclick = () => goTo(0);
find('last').onclick = () => goTo(positions.length - 1);
find('before').onclick = () => goTo(position - 1);
find('after').onclick = () => goTo(position + 1);
find('call-before').onclick = () => goToCall(-1);
find('call-after').onclick = () => goToCall(1);
find('up').onclick = () => { topRow = Math.max(0, topRow - WINDOW); showRows(false); };
find('down').onclick = () => { topRow += WINDOW; showRows(false); };
document.addEventListener('keydown', onKey);
window.addEventListener('resize', () => show(false));
let positionOnScreen = 0;
window.addEventListener('beforeprint', () => {
  positionOnScreen = position;
  position = positions.length - 1;
  show(true);
});
window.addEventListener('afterprint', () => goTo(positionOnScreen));
show(false);
";
