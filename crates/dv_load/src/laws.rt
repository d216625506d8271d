// The laws of texts and of main methods. Each law is the contract of a function that does nothing.
ghost use Rattle.dv_load.specs.Laws.{BootClassesAreNamed, MainsAreMain, ReadClassesAreNamed, RowsAreCounted, ScheduledTextsGiveImages, TextsGiveImages};

/// Each class that is read has a name.
pub fn read_classes_are_named()
    ensures { ReadClassesAreNamed }
{}

/// So has each boot class.
pub fn boot_classes_are_named()
    ensures { BootClassesAreNamed }
{}

/// The table of boot classes has a row for each of them.
pub fn rows_are_counted()
    ensures { RowsAreCounted }
{}

/// The image of a text is what linking gives of the definitions in it.
pub fn texts_give_images()
    ensures { TextsGiveImages }
{}

/// So is that of a text with a schedule.
pub fn scheduled_texts_give_images()
    ensures { ScheduledTextsGiveImages }
{}

/// The main method of a class is a static method `main` of the image with a body, which takes nothing or an array of strings.
pub fn mains_are_main()
    ensures { MainsAreMain }
{}
