/// What a page begins with, up to its styles. Nothing is loaded from elsewhere, and the page says so to the browser.
pub(crate) const HEAD: &str = "<!doctype html>
<html lang='en'>
<head>
<meta charset='utf-8'>
<meta name='viewport' content='width=device-width, initial-scale=1'>
<meta http-equiv='Content-Security-Policy' content='default-src &#39;none&#39;; \
style-src &#39;unsafe-inline&#39;; script-src &#39;unsafe-inline&#39;'>
<title>mesamon</title>
";

/// What stands behind the styles, up to the run.
pub(crate) const BODY: &str = "</head>
<body>
<header>
<h1 id='title'></h1>
<p id='counts'></p>
</header>
<div id='controls' role='toolbar' aria-label='Steps'>
<button id='first' title='to the beginning (Home)'>|&#9664;</button>
<button id='back' title='one action back (Left)'>&#9664;</button>
<input id='slider' type='range' min='0' value='0' aria-label='Action'>
<button id='forth' title='one action on (Right)'>&#9654;</button>
<button id='last' title='to the end (End)'>&#9654;|</button>
<button id='nextown' title='the next action of this process (n, back: N)'><u>n</u>ext of process</button>
<button id='nextwake' title='the next wake (w, back: W)'>next <u>w</u>ake</button>
<label>process <select id='byprocess'></select></label>
<label>monitor <select id='bymonitor'></select></label>
<label>search <input id='search' type='search' size='10' title='/ comes here, Enter goes on, Shift Enter back'></label>
<span id='found' role='status'></span>
<button id='closer' title='closer (+)'>+</button>
<button id='farther' title='farther (-)'>&minus;</button>
<button id='whole' title='the whole run (0)'>whole</button>
</div>
<p id='told' role='status' aria-live='polite'></p>
<div id='lanes' tabindex='0' aria-label='The processes over time: a click goes to an action'><div id='tall'><canvas id='canvas'></canvas></div></div>
<main>
<section aria-label='Source'><h2 id='file'></h2><div id='source' class='rows' tabindex='0' role='listbox' aria-label='Lines of the source'></div></section>
<section aria-label='Actions'><h2>Actions</h2><div id='actions' class='rows' tabindex='0' role='listbox' aria-label='Actions'></div></section>
<section id='state' aria-label='State' tabindex='0'>
<div id='hang'></div>
<h2>Processes</h2><table id='processes'></table>
<h2>Monitors</h2><div id='monitors'></div>
</section>
</main>
<details id='help'><summary>Signs and keys</summary>
<div id='legend'></div>
<p><kbd>Left</kbd> <kbd>Right</kbd> one action, <kbd>Page Up</kbd> <kbd>Page Down</kbd> twenty, <kbd>Home</kbd> <kbd>End</kbd> the ends.
<kbd>n</kbd> the next action of this process, <kbd>w</kbd> the next wake, <kbd>N</kbd> <kbd>W</kbd> the one before.
<kbd>p</kbd> shows the current process alone, and then all again. <kbd>/</kbd> the search. <kbd>+</kbd> <kbd>-</kbd> <kbd>0</kbd> how close, <kbd>Escape</kbd> leaves a field.</p>
</details>
<noscript><p>This page needs its script.</p></noscript>
<script type='application/json' id='run'>
";

/// What stands behind the script.
pub(crate) const TAIL: &str = "</script>
</body>
</html>
";
