//! The fields of each form that a person fills in, and its button.

pub const ACKNOWLEDGE: &str =
    "<h2>Acknowledge</h2><label>Comment <input name=\"text\" required></label> \
<label><input type=\"checkbox\" name=\"sticky\" value=\"1\"> until it recovers</label> \
<label><input type=\"checkbox\" name=\"persistent\" value=\"1\"> keep the comment</label> \
<button>Acknowledge</button></form>\n";

pub const UNACKNOWLEDGE: &str = "<button>Remove the acknowledgement</button></form>\n";

pub const COMMENT: &str = "<h2>Comment</h2><label>Comment <input name=\"text\" required></label> \
<label><input type=\"checkbox\" name=\"persistent\" value=\"1\" checked> keep it</label> \
<button>Add the comment</button></form>\n";

pub const DOWNTIME: &str = "<h2>Downtime</h2><label>Comment <input name=\"text\" required></label> \
<label>for <select name=\"for\"><option value=\"30m\">30 minutes</option>\
<option value=\"2h\" selected>2 hours</option><option value=\"1d\">a day</option>\
<option value=\"\">until the time below</option></select></label> \
<label>from, in UTC <input type=\"datetime-local\" name=\"from\"></label> \
<label>until, in UTC <input type=\"datetime-local\" name=\"until\"></label> \
<label>flexible, for a span as 90m <input name=\"flexible\"></label> \
<label><input type=\"checkbox\" name=\"services\" value=\"1\"> each service of the host</label> \
<button>Schedule downtime</button></form>\n";

pub const PASSIVE: &str = "<h2>Passive checks</h2><label><select name=\"setting\">\
<option value=\"on\">on</option><option value=\"off\">off</option></select></label> \
<button>Set</button></form>\n";

pub const MARKED: &str =
    "<fieldset><legend>For the marked objects</legend><label>Comment <input name=\"text\" required></label> \
<label><input type=\"checkbox\" name=\"sticky\" value=\"1\">&nbsp;until it recovers</label> \
<label><input type=\"checkbox\" name=\"persistent\" value=\"1\">&nbsp;keep the comment</label> \
<button name=\"action\" value=\"acknowledge\">Acknowledge</button> \
<button name=\"action\" value=\"comment\">Add the comment</button> \
<label>for&nbsp;<select name=\"for\"><option value=\"30m\">30 minutes</option>\
<option value=\"2h\" selected>2 hours</option><option value=\"1d\">a day</option></select></label> \
<button name=\"action\" value=\"downtime\">Schedule downtime</button></fieldset>\
<fieldset><legend>Without a comment</legend>\
<button name=\"action\" value=\"unacknowledge\" formnovalidate>Remove the acknowledgement</button> \
<label>Passive checks&nbsp;<select name=\"setting\"><option value=\"on\">on</option>\
<option value=\"off\">off</option></select></label> \
<button name=\"action\" value=\"passive\" formnovalidate>Set</button></fieldset>\n";
