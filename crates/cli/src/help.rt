// The page of help.

/// The page of help: what the program's commands are, a line or two each.
pub const USAGE: &str = "\
usage: ringbench COMMAND

  show PRESET            print what a preset file holds, one line a part
  encode TEXT PRESET     read such a text and write the preset file, which is not the text's own
  judge PRESET...        print a line for each preset: whether no ring changes its total
  crossings PRESET       print what crosses at each word, one line a word
  compare PRESET PRESET  print whether two presets' densities have the same total on every ring
  play PRESET            play the script on standard input: open RING, step [N], touch SITE LETTER,
                         read SITE, arc SITE LENGTH, meters, close; # starts a comment
  run PRESET RING STEPS [--meters]
                         print the ring, one row a step, and what has crossed into each site
  help, --help, -h       print this page

At most 1000000 steps are run at once. A file whose name begins with a minus sign is given as
./-NAME. The status is 0 where all that was asked is done, each preset holds and the densities
agree, and else 1.
";
