//! The text around the style, the data and the script of a page.

/// From the start to the style. A browser loads nothing for the page, and runs no script but the
/// one with this sum, whatever the data are.
pub(crate) const BEFORE_STYLE: &str = "<!doctype html>
<html lang='en'>
<head>
<meta charset='utf-8'>
<meta name='viewport' content='width=device-width, initial-scale=1'>
<meta http-equiv='Content-Security-Policy' content=\"default-src 'none';
 style-src 'sha256-OfQLAP53o2N+HxiUSpDwuNz4XAi2F+CU4XD4ps2owSc=';
 script-src 'sha256-xAZalwghKvQWuQrdPlCROxkhWJYyGR7bN5p3id2JhAI='\">
<title>The heap of a tenant</title>
<style>";

/// From the style to the data.
pub(crate) const BEFORE_DATA: &str = "</style>
</head>
<body>
<header><h1 id='title'>The heap of a tenant</h1><p id='run' class='soft'></p></header>
<noscript><p>A script shows the data of this page, and scripts are switched off.</p></noscript>
<section class='cause' aria-labelledby='why'><h2 id='why'>Why it ended</h2><p id='told'></p>
<p id='story'></p><ol id='stack' start='0' aria-label='Calls that led to the end'></ol>
<ul id='chunks' aria-label='Heap calls of the cause'></ul></section>
<section class='steps' aria-label='Steps'>
<label for='slider'>Step <output id='at' for='slider'></output></label>
<input id='slider' type='range' min='0' step='1'>
<div class='buttons'>
<button type='button' id='first'>First</button>
<button type='button' id='call-before'>Heap call before</button>
<button type='button' id='before'>Step back</button>
<button type='button' id='after'>Step on</button>
<button type='button' id='call-after'>Heap call after</button>
<button type='button' id='last'>Last</button>
<label for='number'>Go to step</label><input id='number' type='number' min='0'>
</div></section>
<p id='now' role='status'></p>
<section aria-labelledby='heap-name'><h2 id='heap-name'>Heap</h2>
<p id='legend'></p><p id='note' class='soft'></p>
<div class='wide' id='heap-area' tabindex='0' role='region' aria-labelledby='heap-name'>
<table id='heap'></table></div>
<div class='buttons screen'><button type='button' id='up'>Rows above</button>
<button type='button' id='down'>Rows below</button><span id='rows' class='soft'></span></div>
</section>
<section aria-labelledby='calls-name'><h2 id='calls-name'>Heap calls</h2>
<p id='left-out' class='soft'></p>
<div class='wide tall' id='calls-area' tabindex='0' role='region' aria-labelledby='calls-name'>
<table id='calls'><thead><tr><th scope='col'>Step</th><th scope='col'>Call</th>
<th scope='col'>What</th><th scope='col'>Where</th></tr></thead><tbody></tbody></table></div>
</section>
<section class='screen' aria-labelledby='code-name'><h2 id='code-name'>Instructions</h2>
<div class='wide' id='code-area' tabindex='0' role='region' aria-labelledby='code-name'>
<table id='code'><thead><tr><th scope='col'>Step</th><th scope='col'>Instruction</th>
<th scope='col'>What it did</th><th scope='col'>Where</th></tr></thead><tbody></tbody></table>
</div></section>
<footer><p class='soft'>Keys: left and right arrow a step, Page Up and Page Down a heap call,
Home and End the first and the last step.</p></footer>
<script type='application/json' id='data'>
";

/// From the data to the script.
pub(crate) const BEFORE_SCRIPT: &str = "
</script>
<script>";

/// The text after the script.
pub(crate) const END: &str = "</script>
</body>
</html>
";
