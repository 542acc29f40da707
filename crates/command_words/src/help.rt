//! The texts of `--help`, in lines of at most 80 columns.

pub(crate) const ABOUT: &str = "\
Find out how much memory virtual machines would save by sharing equal pages.
Replay and run what guests ask of a machine that shares them.";

/// The text below the program's help.
pub(crate) const PROGRAM: &str = "\
How much memory would sharing save? For virtual machines that run here, give
the numbers of their processes:

    pageshare estimate --pid 4711 --pid 4712

For images of their memory, and with a picture:

    pageshare estimate --svg shares.svg web.core database.core

For many hosts, write a digest of each guest where it runs. A digest contains
no byte of the guest's memory. Then merge all digests in one place:

    pageshare digest --name web --pid 4711 > web.digest
    pageshare fleet web.digest database.digest

docs/USING.md describes these commands.

To see how sharing works, replay a journal of what guests asked:

    pageshare replay examples/three-share.journal

docs/FORMATS.md defines journals and scripts, and every verdict and fault.

The exit status is 0 on success, 1 if input, output, memory or a thread failed,
and 2 if the command line is wrong.";

pub(crate) const REPLAY: &str = "Replay a journal: print verdicts and a report";

/// The text below the help of `replay`.
pub(crate) const JOURNAL: &str = "\
A journal is a text file. Each line ends with a line feed, and single spaces
separate its words:

    pageshare journal 1
    frames 2
    pages 1 1
    0 store 0 0 41
    1 store 0 0 41
    0 propose 0
    1 propose 0
    end 4

Here the machine has 2 frames of memory, and guests 0 and 1 have 1 page each.
Both store the byte 0x41 at place 0 of their page 0, and propose the page for
sharing. The second proposal gets the verdict `1 paired`, and the report says
that 1 frame is reclaimed. To replay a longer one:

    pageshare replay examples/three-share.journal

docs/FORMATS.md defines each line, verdict and fault. The exit status is 0 on
success, 1 if input, output or memory failed, and 2 if the command line is
wrong.";

pub(crate) const SERIAL: &str = "Serve a script on one thread: print verdicts and a report";

pub(crate) const RUN: &str = "Run a script, a thread for each guest: print verdicts and a report";

/// The text below the help of `run` and `serial`.
pub(crate) const SCRIPT: &str = "\
A script is a text file that says what each guest asks. Each line ends with a
line feed, and single spaces separate its words:

    pageshare script 1
    frames 2
    pages 1
    ring 1
    journal 5
    0 store 0 0 41
    0 scan random 7 2
    0 release 0
    end 3

Here the machine has 2 frames of memory, and guest 0 has 1 page. Its rings hold
1 request and 1 verdict, and the journal holds 5 requests. The guest stores the
byte 0x41, proposes 2 pages drawn at random by the seed 7, and releases page 0.
It is then closed.

`serial` serves one request of each guest in turn. `run` gives each guest a
thread, and the order among guests depends on the threads. With --journal `run`
prints that order as a journal, which replays to the same verdicts:

    pageshare run --journal examples/two-guests.script > two.journal
    pageshare replay two.journal

docs/FORMATS.md defines each line, verdict and fault. The exit status is 0 on
success, 1 if input, output, memory or a thread failed, and 2 if the command
line is wrong.";

pub(crate) const JOURNAL_FILE: &str = "The journal; without it, standard input is read";

pub(crate) const SCRIPT_FILE: &str = "The script; without it, standard input is read";

pub(crate) const RUN_JOURNAL: &str = "Print the run's journal instead of verdicts and report";

pub(crate) const PROGRESS: &str = "Show progress: auto, always or never";

pub(crate) const WORKERS: &str = "Threads that read, 1 to 64 [default: one a processor]";

pub(crate) const UNIT: &str = "Unit of the table: mib or pages";

pub(crate) const JSON: &str = "Print a JSON object instead of the table";

pub(crate) const ESTIMATE: &str =
    "Count the memory that sharing would save, of processes or images";

/// The text below the help of `estimate`.
pub(crate) const OF_ESTIMATE: &str = "\
An image is a raw memory file (of QEMU's `pmemsave`, or of a Firecracker or
Cloud Hypervisor snapshot) or a 64-bit ELF core (of `virsh dump --memory-only`).
Give one for each guest, or the process that the guest runs in, or both kinds:

    pageshare estimate --svg shares.svg web.core database.core
    pageshare estimate --pid 4711 --pid 4712
    pageshare estimate --salts 0,0,7 web.core --pid 4711 --pid 4712

The guests are numbered from 0: first those of images, then those of processes.
A process needs a debugger's rights: be root, for example. It runs on while each
of its pages is read once, so pause the guest first for one consistent moment.
Only pages in memory or swap are read, of the memory that it offers for sharing.
If it offers none, or pageshare-host shares it, all its private anonymous memory
is read. --all-memory reads all of its memory that no file backs.

The output is a line for each guest, the total, how often contents occur, and a
sentence whose parts add up, such as

    425 of 512 MiB could be reclaimed (83.0 %):
    355 zeros, 23 between guests, 47 within guests

First come the processes that pageshare-host shares already. With processes a
last line says how much is shared in all.

Only guests with equal salts share. docs/IMAGES.md explains each number. The
exit status is 0 on success, 1 if an image, a process, the picture, the output
or memory failed, and 2 if the command line is wrong.";

pub(crate) const IMAGES: &str = "An image of each guest's memory";

pub(crate) const ALL_MEMORY: &str = "Read memory of processes that isn't offered, too";

pub(crate) const PIDS: &str = "A process that a guest runs in; may be repeated";

pub(crate) const SALTS: &str = "A salt for each guest [default: 0 for each]";

pub(crate) const RAW_IMAGES: &str = "Read each image as raw, whatever it begins with";

pub(crate) const SVG: &str = "Also write a picture to this file";

pub(crate) const DIGEST: &str = "Write which contents a guest's memory has, without its bytes";

/// The text below the help of `digest`.
pub(crate) const OF_DIGEST: &str = "\
A digest is a text file with a line for each different content of the guest's
pages: 128 bits of its SHA-256, and how many pages have it. It contains no byte
of the pages. `pageshare fleet` merges the digests of many hosts.

    pageshare digest --salt 7 --sample 64 web.core > web.digest
    pageshare digest --name web --pid 4711 > web.digest

`pageshare estimate --help` says what an image is. With --pid a running process
is read, each page once: those pages in memory or swap that it offers for
sharing. If it offers none, or pageshare-host shares it, all its private
anonymous memory is read. --all-memory reads all of its memory that no file
backs. For one consistent moment, pause the guest first.

With --sample K only about one content in K is kept, the same ones for every
guest, and always that of zeros.

Anyone who has a digest can test whether a known page is in it. Guests with
different salts never count as sharing. docs/FORMATS.md defines the text. The
exit status is 0 on success, 1 if the image, the process, the output or memory
failed, and 2 if the command line is wrong.";

pub(crate) const NAME: &str = "The guest's name [default: the image's file name]";

pub(crate) const SAMPLE: &str = "Keep 1 content in K, a power of two [default: 1]";

pub(crate) const SALT: &str = "The guest's salt [default: 0]";

pub(crate) const PROCESS: &str = "A process to read instead of an image";

pub(crate) const RAW_IMAGE: &str = "Read the image as raw, whatever it begins with";

pub(crate) const IMAGE: &str = "An image of the guest's memory";

pub(crate) const FLEET: &str = "Count the memory that sharing would save, from digests";

/// The text below the help of `fleet`.
pub(crate) const OF_FLEET: &str = "\
Each digest is of one guest, as `pageshare digest` writes it. All must have the
same sample:

    pageshare fleet web.digest database.digest
    pageshare fleet --pairs pairs.csv digests/*.csv

The output is a line for each guest, the total, how often contents occur, and a
sentence whose parts add up, such as

    23810 of 25600 MiB could be reclaimed (93.0 %):
    19877 zeros, 3542 between guests, 391 within guests

Guests named host1.web and host1.database are on host1. If there are two hosts
or more, the numbers are also printed by host: a line for each, their sum, and
one pool of all guests. Then the last lines say what sharing would reclaim where
the guests are, and if one host had all of them. --hosts names other hosts: a
line guest,host, and then a line such as web,host1 for each guest. For numbers by
host a digest is read twice, so it can't be a pipe.

The numbers are exact if no two different contents have the same digest. With a
sample above 1 they are estimates, and each has its standard error next to it.

--pairs writes a line for each pair of guests: how many contents both have, and
how many pages would be freed if one copy of each were kept. That takes 64 bytes
of memory for each pair. Otherwise each digest takes 64 KiB, however long it is.
There may be 65,536 of them, if the system lets so many files be open at once.

docs/FLEETS.md explains how to collect digests, and what each number means. The
exit status is 0 on success, 1 if a digest, the hosts, the pairs, the output or
memory failed, and 2 if the command line is wrong.";

pub(crate) const HOSTS: &str = "Take the guests' hosts from this list, as CSV";

pub(crate) const DIGESTS: &str = "A digest of each guest's memory";

pub(crate) const PAIRS: &str = "Also write what pairs of guests have in common, as CSV";
