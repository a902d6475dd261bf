//! The texts of the program's own options.

/// What `--help` prints.
pub(crate) const HELP: &str = "\
codes: a workbench for linear codes

  codes run          run the script on standard input
  codes resume       go on with a session that kept checkpoints
  codes check        say whether the certificate on standard input is accepted
  codes summary      search the code of length 48 made from a seed: seed=N
  codes part         search some blocks of the first search of the script:
                     from=N count=N, after which there may be workers=N
  codes join         make a checkpoint of the lines that part has printed,
                     after which there may be budget=N
  codes --help       print this text
  codes --version    print the version

After run, resume and summary there may be
  workers=N  threads of a search, 1 to 256 (1)
  round=N    blocks of a round of a search, 1 to 2^20 (256)
  budget=N   blocks of a search, 0 to 2^40 (2^20)
and after run and resume
  keep=yes   store a checkpoint after each round in codes.slot0 and codes.slot1;
             the session pauses while there is a file codes.stop. Else keep=no
  slice=N    with keep=yes, pause after N blocks, 1 to 2^40

A script is a list of statements, each ended by a semicolon. The script

  C := HammingCode(3,GF(2));
  Dimension(C);
  MinimumDistance(C);

prints the lines `4` and `distance 3 word [1,0,0,0,0,1,1] blocks 2`.
docs/PROVED.md says what is proved, docs/SCRIPT.md what a script may say,
docs/FORMATS.md what is printed. Each round of a search writes a line to
standard error.

Status:
  0   the text was written            7   there is no memory
  1   .. and a fault line ends it     8   there is no checkpoint
  2   a word is refused               9   no slot holds a checkpoint
  3   paused; resume goes on         10   it is of another script or budget
  4   reading the input failed       11   the certificate is rejected
  5   writing the text failed        12   the input is above 1,048,576 bytes
  6   a slot can't be read, emptied  13   the checkpoint does not fit the script
      or stored                      14   blocks are missing
 15   there is no such part          16   two lines disagree
";

/// What `--version` prints.
pub(crate) const VERSION: &str = "codes 0.6.13\n";
