/// The second part of the script: lists of which only the rows in view are made.
pub(crate) const LISTS: &str = "
const HIGH = 20;
const byId = id => document.getElementById(id);
function make(tag, name, text) {
  const made = document.createElement(tag);
  if (name) made.className = name;
  if (text !== undefined) made.textContent = text;
  return made;
}

// A list: `fill` makes a row of it, and `choose` is told which one was clicked.
class Rows {
  constructor(box, fill, choose) {
    this.box = box;
    this.fill = fill;
    this.count = 0;
    this.inner = make('div');
    this.inner.setAttribute('role', 'presentation');
    box.append(this.inner);
    box.addEventListener('scroll', () => this.draw());
    box.addEventListener('click', event => {
      const row = event.target.closest('.row');
      if (row) choose(Number(row.dataset.index));
    });
  }
  resize(count) {
    this.count = count;
    this.inner.style.height = count * HIGH + 'px';
  }
  draw() {
    const first = Math.max(0, Math.floor(this.box.scrollTop / HIGH) - 3);
    const beyond = Math.min(this.count, first + Math.ceil(this.box.clientHeight / HIGH) + 6);
    const rows = [];
    for (let index = first; index < beyond; index += 1) {
      const row = make('div', 'row');
      row.dataset.index = index;
      row.setAttribute('role', 'option');
      row.setAttribute('aria-setsize', this.count);
      row.setAttribute('aria-posinset', index + 1);
      row.style.top = index * HIGH + 'px';
      this.fill(row, index);
      rows.push(row);
    }
    this.inner.replaceChildren(...rows);
  }
  reveal(index) {
    const top = index * HIGH, high = this.box.clientHeight;
    if (top < this.box.scrollTop + HIGH || top + 2 * HIGH > this.box.scrollTop + high) {
      this.box.scrollTop = Math.max(0, top - high / 2);
    }
    this.draw();
  }
}

// The sign of a process: its number on its colour.
function badge(number, name) {
  const made = make('span', 'badge' + (name ? ' ' + name : ''), number);
  const colour = (number - 1) % 7;
  made.style.background = 'var(--p' + colour + ')';
  if (name === 'waits') made.style.borderColor = 'var(--p' + colour + ')';
  if (colour === 0) made.classList.add('dark');
  made.title = 'process ' + number + ': ' + processes[number].name;
  return made;
}
function appendNumbers(node, numbers, name) {
  for (const number of numbers.slice(0, 40)) node.append(badge(number, name), ' ');
  if (numbers.length > 40) node.append('and ' + (numbers.length - 40) + ' more');
}
";
