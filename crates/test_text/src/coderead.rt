// What no text of a program shows. All else of reading bodies is in `cases/reading`.
mod bodies;
mod raw;
mod references;
mod words;
