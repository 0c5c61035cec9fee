/// The last part of the script: the moment that is shown, and what goes to another one.
pub(crate) const CONTROLS: &str = "
let moment = 0;
let shownActions = null;
let hits = [];
const filter = {process: 0, monitor: -1};
const START = {process: 1, line: 0, now: NONE, text: ''};
const current = () => moment > 0 ? actions[moment] : START;
const slider = byId('slider'), search = byId('search'), byProcess = byId('byprocess'), byMonitor = byId('bymonitor');
const sourceRows = new Rows(byId('source'), fillLine, index => goToLine(index + 1));
const actionRows = new Rows(byId('actions'), fillAction, index => goTo(shownActions ? shownActions[index] : index + 1));

function tell() {
  const action = current();
  const place = action.line ? ', line ' + action.line : '';
  const text = moment === 0 ? 'the beginning' : action.text + place + (action.more ? ': ' + action.more : '');
  byId('told').textContent = moment + ' of ' + end + '  ' + text;
}
function draw() {
  stand();
  slider.value = moment;
  slider.setAttribute('aria-valuetext', 'action ' + moment + ': ' + current().text);
  document.body.dataset.moment = moment;
  tell();
  sourceRows.reveal(Math.max(0, (current().line || processes[current().process].line.at(moment)) - 1));
  actionRows.reveal(Math.max(0, shownActions ? lowest(shownActions, moment) : moment - 1));
  followLanes();
  drawLanes();
  fillHang();
  fillProcesses();
  fillMonitors();
}
function goTo(k) {
  moment = Math.max(0, Math.min(end, k));
  draw();
}
// The next one of rising numbers, or the one before.
function goAmong(numbers, forth) {
  const index = forth ? lowest(numbers, moment + 1) : lowest(numbers, moment) - 1;
  if (index >= 0 && index < numbers.length) goTo(numbers[index]);
}
function step(by) {
  if (!shownActions) { goTo(moment + by); return; }
  const index = by > 0 ? lowest(shownActions, moment + 1) + by - 1 : lowest(shownActions, moment) + by;
  if (shownActions.length) goTo(index < 0 ? 0 : shownActions[Math.min(index, shownActions.length - 1)]);
}
const goOwn = forth => goAmong(processes[filter.process || current().process].own, forth);
function goToLine(line) {
  const done = doneAt.get(line);
  if (!done) return;
  const index = lowest(done, moment + 1);
  goTo(done[index < done.length ? index : 0]);
}

function isShown(k) {
  const action = actions[k];
  return (!filter.process || touches(action, filter.process)) && (filter.monitor < 0 || concerns(action, filter.monitor));
}
function refilter() {
  filter.process = Number(byProcess.value);
  filter.monitor = Number(byMonitor.value);
  shownActions = null;
  if (filter.process || filter.monitor >= 0) {
    shownActions = [];
    for (let k = 1; k <= end; k += 1) if (isShown(k)) shownActions.push(k);
  }
  actionRows.resize(shownActions ? shownActions.length : end);
  chooseLanes();
  sizeLanes();
  research();
  draw();
}
function research() {
  const words = search.value.trim().toLowerCase();
  hits = [];
  if (words) {
    for (let k = 1; k <= end; k += 1) {
      const action = actions[k];
      const text = action.text + ' ' + (action.more || '') + ' :' + (action.line || '');
      if (text.toLowerCase().includes(words) && (!shownActions || isShown(k))) hits.push(k);
    }
  }
  byId('found').textContent = words ? hits.length + ' found' : '';
}

const KEYS = {
  ArrowLeft: () => step(-1), ArrowRight: () => step(1), PageUp: () => step(-20), PageDown: () => step(20),
  Home: () => goTo(0), End: () => goTo(end), n: () => goOwn(true), N: () => goOwn(false),
  w: () => goAmong(wakes, true), W: () => goAmong(wakes, false), '+': () => zoom(1.5), '=': () => zoom(1.5), '-': () => zoom(1 / 1.5),
  0: () => zoom(0), '/': () => search.focus(),
  p: () => { byProcess.value = filter.process ? 0 : current().process; refilter(); },
};
addEventListener('keydown', event => {
  if (event.ctrlKey || event.altKey || event.metaKey) return;
  const field = event.target;
  if (field === search || field.tagName === 'SELECT') {
    if (event.key === 'Escape') field.blur();
    if (field === search && event.key === 'Enter') { goAmong(hits, !event.shiftKey); event.preventDefault(); }
    return;
  }
  const key = KEYS[event.key];
  if (!key) return;
  event.preventDefault();
  key();
});
for (const [id, key] of [['first', 'Home'], ['back', 'ArrowLeft'], ['forth', 'ArrowRight'], ['last', 'End'], ['nextown', 'n'],
  ['nextwake', 'w'], ['closer', '+'], ['farther', '-'], ['whole', '0']]) byId(id).addEventListener('click', KEYS[key]);
slider.addEventListener('input', () => goTo(Number(slider.value)));
search.addEventListener('input', () => { research(); actionRows.draw(); });
byProcess.addEventListener('change', refilter);
byMonitor.addEventListener('change', refilter);
byId('processes').addEventListener('click', event => {
  const row = event.target.closest('tr');
  if (row) { byProcess.value = filter.process === Number(row.dataset.process) ? 0 : row.dataset.process; refilter(); }
});

// The lanes: a click goes there, a drag or the wheel moves them.
let drag = null;
lanes.addEventListener('pointerdown', event => { drag = {x: event.clientX, left: view.left, moved: false}; });
addEventListener('pointermove', event => {
  if (!drag) return;
  if (Math.abs(event.clientX - drag.x) > 4) drag.moved = true;
  if (!drag.moved) return;
  view.left = drag.left - (event.clientX - drag.x) / view.scale;
  hold();
  drawLanes();
});
addEventListener('pointerup', event => {
  const was = drag;
  drag = null;
  if (!was || was.moved || !lanes.contains(event.target)) return;
  const box = lanes.getBoundingClientRect(), x = event.clientX - box.left;
  const number = shownLanes[Math.floor((event.clientY - box.top - RULE + lanes.scrollTop) / LANE)];
  if (x >= GUTTER) goTo(nearest(number, Math.round(momentAt(x))));
  else if (number) { byProcess.value = filter.process === number ? 0 : number; refilter(); }
});
// An action of the process that was clicked, where one is near.
function nearest(number, k) {
  if (!number) return k;
  const own = processes[number].own, index = lowest(own, k);
  const far = Math.max(1, 8 / view.scale);
  for (const near of [own[index], own[index - 1]]) if (near !== undefined && Math.abs(near - k) <= far) return near;
  return k;
}
lanes.addEventListener('wheel', event => {
  const box = lanes.getBoundingClientRect();
  if (event.ctrlKey) { event.preventDefault(); zoom(event.deltaY < 0 ? 1.25 : .8, event.clientX - box.left); return; }
  const by = event.deltaX || (event.shiftKey || lanes.scrollHeight <= lanes.clientHeight ? event.deltaY : 0);
  if (!by) return;
  event.preventDefault();
  view.left += by / view.scale;
  hold();
  drawLanes();
}, {passive: false});
lanes.addEventListener('scroll', drawLanes);

// What each sign of the lanes says.
const LEGEND = [
  ['runs', RUNS, NONE], ['holds a monitor; its pattern is the monitor', RUNS, [1]],
  ['waits for a monitor', {kind: 'enters', monitor: -1}, NONE], ['was woken, and waits for its monitor', {kind: 'resumes', monitor: -1}, NONE],
  ['waits on a condition', null, NONE], ['waits for the end of a process', {kind: 'joins', child: 0}, NONE], ['is dying', {kind: 'dies'}, NONE],
];
function drawLegend() {
  const whole = pen.canvas, box = byId('legend');
  box.replaceChildren();
  for (const [text, state, held] of LEGEND) {
    const item = make('span'), small = make('canvas');
    small.width = 52;
    small.height = 20;
    const own = small.getContext('2d');
    own.translate(2, 10);
    own.lineWidth = 2;
    own.strokeStyle = own.fillStyle = colours.p0;
    if (!state) { own.setLineDash([4, 3]); own.strokeRect(0, -6, 48, 12); }
    else if (held.length) { own.fillRect(0, -7, 48, 14); own.fillStyle = shades[1]; own.fillRect(0, -7, 48, 14); }
    else {
      const [wide, dashes, colour] = {runs: [2.5, NONE, 'p0'], enters: [4, [7, 4], 'p0'], resumes: [4, [2, 3], 'p0'],
        joins: [1.5, [1, 4], 'quiet'], dies: [4, NONE, 'wrong']}[state.kind];
      own.strokeStyle = colours[colour];
      own.lineWidth = wide;
      own.setLineDash(dashes);
      own.beginPath();
      own.moveTo(0, 0);
      own.lineTo(48, 0);
      own.stroke();
    }
    item.append(small, text);
    box.append(item);
  }
  box.append(make('span', '', 'blue arrow: wakes; green arrow: forks; dashed arrow: is joined'),
    make('span', '', 'square: ended; cross: aborted; diamond: fault, kill or an abandoned monitor'));
}

function option(select, value, text) {
  const made = make('option', '', text);
  made.value = value;
  select.append(made);
}
function start() {
  document.title = run.title;
  byId('title').textContent = run.title;
  byId('file').textContent = run.file;
  const made = processes.length - 1;
  byId('counts').textContent = end + (end === 1 ? ' action of ' : ' actions of ') + made + (made === 1 ? ' process' : ' processes');
  option(byProcess, 0, 'all');
  for (const process of processes.slice(1)) option(byProcess, process.number, process.number + ' ' + process.name);
  option(byMonitor, -1, 'all');
  for (const monitor of monitors) option(byMonitor, monitor.number, monitor.name);
  slider.max = end;
  sourceRows.resize(source.length);
  readColours();
  drawLegend();
  moment = Math.max(0, Math.min(end, Number(location.hash.slice(1)) || 0));
  refilter();
  zoom(end * 14 < view.wide - GUTTER ? (view.wide - GUTTER - 30) / (end + 1) / 14 : 1);
}
addEventListener('hashchange', () => goTo(Number(location.hash.slice(1)) || 0));
addEventListener('resize', () => { sizeLanes(); hold(); draw(); });
matchMedia('(prefers-color-scheme: dark)').addEventListener('change', () => { readColours(); drawLegend(); draw(); });
start();
";
