//! The script of a page. No byte of it depends on a history.

/// The script, and the end of the body.
pub(crate) const SCRIPT: &[u8] = b"\
<script>
'use strict';
(function () {
  const by = function (id) { return document.getElementById(id); };
  const all = function (parent, words) { return Array.from(parent.querySelectorAll(words)); };
  const view = by('view'), panel = by('panel'), held = by('held'), first = view.querySelector('svg'), parts = all(document, 'template');
  const steps = by('steps') ? by('steps').textContent.trim().split(' ') : [];
  const named = function (element) { const title = element.querySelector('title'); return title ? title.textContent : ''; };
  const add = function (parent, kind, text) { const made = document.createElement(kind); made.textContent = text; parent.appendChild(made); return made; };
  const lines = function (texts) { return texts.join(String.fromCharCode(10)); };
  // The picture that is shown is the first one, or a copy of a part. Marks of the kinds that are hidden look like none.
  let run = first, shown = -1, calls = [], width = 0, height = 0, names = [], scale = 1, chosen = null;
  const marks = all(first, '.mark'), hidden = new Set(), own = new WeakMap();
  const kindsOf = function (call) { return own.get(call).filter(function (mark) { return !hidden.has(mark.dataset.id); }); };

  // The verdict and the faults stand as text above the picture, where they wrap.
  document.documentElement.classList.add('script');
  const verdict = first.querySelector('[data-id=verdict]');
  if (verdict) { by('heading').textContent = document.title = 'A run: ' + verdict.textContent; }
  marks.forEach(function (mark) { add(by('faults'), 'li', named(mark)); });
  by('faults').hidden = marks.length === 0;

  // The board after a call of the printed order: the latest entry of each component in the steps up to it.
  const boardOf = function (number) {
    const last = steps.findIndex(function (step) { return step.split(':')[0] === number; }), board = new Map();
    if (last < 0) { return ''; }
    steps.slice(0, last + 1).forEach(function (step) {
      const entry = step.split(':').slice(1);
      if (entry.length > 0) { board.delete(entry[0]); board.set(entry[0], entry.join(':')); }
    });
    const latest = Array.from(board.values()).slice(-16).sort(function (one, two) { return parseInt(one, 10) - parseInt(two, 10); });
    const rest = board.size - latest.length;
    return 'the board after it: ' + (latest.join(' ') || 'no entry') + (rest > 0 ? ', and ' + rest + ' entries that are older' : '');
  };

  // The panel shows a call, its records as the text has them, the board after it, and the faults that it belongs to.
  const show = function (call) {
    const said = named(call), title = said.match(/of process ([0-9]+), .*?: (update|view) ?(.*)$/);
    const places = call.dataset.records.split('-'), board = boardOf(call.dataset.id.slice(5));
    if (chosen) { chosen.classList.remove('chosen'); }
    chosen = call;
    call.classList.add('chosen');
    panel.textContent = '';
    add(panel, 'h2', said);
    if (title) {
      const isView = title[2] === 'view', start = ',' + title[1] + ',' + title[2] + ',';
      const opened = 'record ' + places[0] + ': begin' + start + (isView ? '' : title[3]);
      const closed = places[1] ? 'record ' + places[1] + ': end' + start + (isView ? title[3] : '') : 'no record ends it: the call is pending';
      add(panel, 'pre', lines([opened, closed]));
    }
    if (board) { add(panel, 'pre', board).id = 'board'; }
    kindsOf(call).forEach(function (mark) {
      const why = document.querySelector('.why[data-of=' + mark.dataset.id + ']');
      add(panel, 'p', named(mark));
      if (why) { add(panel, 'pre', why.textContent); }
    });
    panel.classList.toggle('is-fault', kindsOf(call).length > 0);
  };

  const zoom = function (to, x, y) {
    const next = Math.min(8, Math.max(0.05, to)), ratio = next / scale;
    const left = (view.scrollLeft + x) * ratio - x, above = (view.scrollTop + y) * ratio - y;
    scale = next;
    run.style.width = width * scale + 'px';
    run.style.height = height * scale + 'px';
    view.scrollLeft = left;
    view.scrollTop = above;
  };
  // The names of the lanes stay in sight.
  view.addEventListener('scroll', function () { names.forEach(function (name) { name.setAttribute('x', 8 + view.scrollLeft / scale); }); });
  const bring = function (call) {
    const at = call.getBoundingClientRect(), room = view.getBoundingClientRect();
    if (at.left < room.left || at.right > room.right) { view.scrollLeft += at.left - room.left - 70; }
    if (at.top < room.top || at.bottom > room.bottom) { view.scrollTop += at.top - room.top - 20; }
  };
  const fit = function () { zoom(Math.min(view.clientWidth / width, 0.74 * window.innerHeight / height), 0, 0); };
  const marked = function () { return calls.filter(function (call) { return kindsOf(call).length > 0; }); };
  const paint = function () {
    calls.forEach(function (call) {
      const tag = call.querySelector('.tag'), left = kindsOf(call);
      own.get(call).forEach(function (mark) { call.classList.toggle(mark.dataset.id, !hidden.has(mark.dataset.id)); });
      if (tag) { tag.textContent = left.length < own.get(call).length ? left.map(function (mark) { return mark.dataset.id.slice(6); }).join(' ') : tag.dataset.whole; }
    });
    marks.forEach(function (mark) { all(run, '.tick.' + mark.dataset.id).forEach(function (tick) { tick.style.display = hidden.has(mark.dataset.id) ? 'none' : ''; }); });
  };
  // Shows the first picture, if the number is below 0, or else that part.
  const open = function (number) {
    const next = number < 0 ? first : document.importNode(parts[number].content.firstElementChild, true);
    view.replaceChild(next, run);
    run = next;
    shown = number;
    calls = all(run, '.call');
    calls.forEach(function (call) {
      const tag = call.querySelector('.tag');
      if (tag && !tag.dataset.whole) { tag.dataset.whole = tag.textContent; }
      if (!own.has(call)) { own.set(call, marks.filter(function (mark) { return call.classList.contains(mark.dataset.id); })); }
    });
    // The legend explains what this picture has.
    all(document, '#legend li').forEach(function (item) { item.hidden = run.querySelector(item.dataset.of) === null; });
    const box = run.getBBox(), top = Math.floor(box.y) - 12;
    width = Math.ceil(box.x + box.width) + 12;
    height = Math.ceil(box.height) + 24;
    run.setAttribute('viewBox', '0 ' + top + ' ' + width + ' ' + height);
    names = all(run, '.lane .name, svg > .name');
    names.forEach(function (name) { run.appendChild(name); });
    paint();
    const whole = view.clientWidth / width;
    zoom(Math.min(1.6, whole < 0.7 ? 1 : whole), 0, 0);
    view.scrollLeft = view.scrollTop = 0;
    if (marked().length > 0) { bring(marked()[0]); }
    by('where').textContent = number < 0 ? 'the first picture' : 'calls ' + parts[number].dataset.first + ' to ' + parts[number].dataset.last + ' of ' + held.dataset.calls;
  };
  // The part with the call of a number, the last one that begins before it or with it.
  const partOf = function (number, name) { return parts.reduce(function (found, part, place) { return Number(part.dataset[name]) <= number ? place : found; }, 0); };
  const numberOf = function (call) { return Number(call.dataset.id.slice(5)); };
  const turn = function (step) {
    const side = step < 0 ? calls[0] : calls[calls.length - 1];
    open(shown < 0 ? partOf(numberOf(side), 'first') : Math.min(parts.length - 1, Math.max(0, shown + step)));
  };
  const seek = function (step) {
    if (marked().length === 0) { open(-1); }
    const found = marked(), now = found.indexOf(chosen), next = now < 0 ? (step < 0 ? -1 : 0) : now + step;
    if (found.length > 0) { found[(next + found.length) % found.length].focus(); }
  };

  const callAt = function (event) { return event.target.closest('.call'); };
  ['pointerover', 'click', 'focusin'].forEach(function (kind) {
    view.addEventListener(kind, function (event) { if (callAt(event)) { show(callAt(event)); } });
  });
  view.addEventListener('focusin', function (event) { if (callAt(event)) { bring(callAt(event)); } });
  view.addEventListener('click', function (event) {
    if (parts.length > 0 && event.target.closest('[data-id=strip]')) {
      const whole = run.querySelector('[data-id=strip] .all').getBoundingClientRect();
      open(partOf((event.clientX - whole.left) / whole.width * Number(held.dataset.events), 'from'));
    }
  });
  const press = function (id, act) { by(id).addEventListener('click', act); };
  press('earlier', function () { turn(-1); });
  press('later', function () { turn(1); });
  press('first', function () { open(-1); });
  press('previous', function () { seek(-1); });
  press('next', function () { seek(1); });
  by('pages').hidden = parts.length === 0;
  by('marks').hidden = marks.length === 0;
  marks.forEach(function (mark) {
    const label = add(by('kinds'), 'label', ''), box = add(label, 'input', '');
    label.append(' ' + mark.dataset.id.slice(6));
    box.type = 'checkbox';
    box.checked = true;
    box.addEventListener('change', function () { if (box.checked) { hidden.delete(mark.dataset.id); } else { hidden.add(mark.dataset.id); } paint(); });
  });
  view.addEventListener('wheel', function (event) {
    if (event.shiftKey) { return; }
    const room = view.getBoundingClientRect();
    event.preventDefault();
    zoom(scale * Math.pow(1.0015, -event.deltaY), event.clientX - room.left, event.clientY - room.top);
  }, { passive: false });
  let grip = null;
  view.addEventListener('pointerdown', function (event) {
    if (event.pointerType === 'mouse' && event.button === 0) { grip = [event.clientX + view.scrollLeft, event.clientY + view.scrollTop]; }
  });
  window.addEventListener('pointermove', function (event) {
    if (grip) { view.scrollLeft = grip[0] - event.clientX; view.scrollTop = grip[1] - event.clientY; }
  });
  window.addEventListener('pointerup', function () { grip = null; });
  const moves = { ArrowLeft: [-60, 0], ArrowRight: [60, 0], ArrowUp: [0, -60], ArrowDown: [0, 60] };
  document.addEventListener('keydown', function (event) {
    if (event.ctrlKey || event.metaKey || event.altKey) { return; }
    const x = view.clientWidth / 2, y = view.clientHeight / 2, move = moves[event.key];
    if (event.key === '+' || event.key === '=') { zoom(scale * 1.25, x, y); }
    else if (event.key === '-') { zoom(scale / 1.25, x, y); }
    else if (event.key === '0') { fit(); }
    else if (move && view.contains(document.activeElement)) { view.scrollLeft += move[0]; view.scrollTop += move[1]; }
    else if (move && document.activeElement === document.body) { view.scrollLeft += move[0]; view.scrollTop += move[1]; }
    else { return; }
    event.preventDefault();
  });
  open(-1);
}());
</script>
</body>
";
