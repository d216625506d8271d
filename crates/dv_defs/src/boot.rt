// The boot classes without their bodies, which linking compares with the classes that it is given.

/// A class on each line: its descriptor, its flags, its superclass and its interfaces. In this order they are looked for.
///
/// Here and below the flags are those that have an effect, with `+` between them, and `-` stands for none.
pub const BOOT_CLASSES: &str = "Ljava/lang/Object; - -
Ljava/lang/Runnable; interface+abstract Ljava/lang/Object;
Ljava/lang/Class; final Ljava/lang/Object;
Ljava/lang/Thread; - Ljava/lang/Object; Ljava/lang/Runnable;
Ljava/lang/String; final Ljava/lang/Object;
Ljava/lang/StringBuilder; final Ljava/lang/Object;
Ljava/lang/System; final Ljava/lang/Object;
Ljava/io/PrintStream; - Ljava/lang/Object;
Ldvm/Text; - Ljava/lang/Object;
Ldvm/Console; - Ljava/lang/Object;
Ljava/lang/Throwable; - Ljava/lang/Object;
Ljava/lang/Exception; - Ljava/lang/Throwable;
Ljava/lang/Error; - Ljava/lang/Throwable;
Ljava/lang/RuntimeException; - Ljava/lang/Exception;
Ljava/lang/InterruptedException; - Ljava/lang/Exception;
Ljava/lang/ArithmeticException; - Ljava/lang/RuntimeException;
Ljava/lang/NullPointerException; - Ljava/lang/RuntimeException;
Ljava/lang/NegativeArraySizeException; - Ljava/lang/RuntimeException;
Ljava/lang/ClassCastException; - Ljava/lang/RuntimeException;
Ljava/lang/ArrayStoreException; - Ljava/lang/RuntimeException;
Ljava/lang/IllegalMonitorStateException; - Ljava/lang/RuntimeException;
Ljava/lang/IndexOutOfBoundsException; - Ljava/lang/RuntimeException;
Ljava/lang/IllegalArgumentException; - Ljava/lang/RuntimeException;
Ljava/lang/ArrayIndexOutOfBoundsException; - Ljava/lang/IndexOutOfBoundsException;
Ljava/lang/IllegalThreadStateException; - Ljava/lang/IllegalArgumentException;
Ljava/lang/LinkageError; - Ljava/lang/Error;
Ljava/lang/VirtualMachineError; - Ljava/lang/Error;
Ljava/lang/NoClassDefFoundError; - Ljava/lang/LinkageError;
Ljava/lang/ExceptionInInitializerError; - Ljava/lang/LinkageError;
Ljava/lang/IncompatibleClassChangeError; - Ljava/lang/LinkageError;
Ljava/lang/AbstractMethodError; - Ljava/lang/IncompatibleClassChangeError;
Ljava/lang/OutOfMemoryError; - Ljava/lang/VirtualMachineError;
Ljava/lang/StackOverflowError; - Ljava/lang/VirtualMachineError;";

/// A field on each line: its class, its flags, its name and its type.
pub const BOOT_FIELDS: &str = "Ljava/lang/Thread; - target Ljava/lang/Runnable;
Ljava/lang/StringBuilder; - text Ljava/lang/String;
Ljava/lang/System; static+final out Ljava/io/PrintStream;
Ljava/lang/Throwable; - message Ljava/lang/String;
Ljava/lang/Throwable; - cause Ljava/lang/Throwable;";

/// A method on each line: its class, its flags, its name, its result and its parameters.
pub const BOOT_METHODS: &str = "Ljava/lang/Object; - <init> V
Ljava/lang/Object; - equals Z Ljava/lang/Object;
Ljava/lang/Object; final+native wait V
Ljava/lang/Object; native notify V
Ljava/lang/Object; native notifyAll V
Ljava/lang/Runnable; abstract run V
Ljava/lang/Thread; - <init> V
Ljava/lang/Thread; - <init> V Ljava/lang/Runnable;
Ljava/lang/Thread; - run V
Ljava/lang/Thread; native start V
Ljava/lang/Thread; native join V
Ljava/lang/Thread; static+native currentThread Ljava/lang/Thread;
Ljava/lang/String; native length I
Ljava/lang/String; native charAt C I
Ljava/lang/String; native equals Z Ljava/lang/Object;
Ljava/lang/String; native concat Ljava/lang/String; Ljava/lang/String;
Ljava/lang/String; - toString Ljava/lang/String;
Ljava/lang/StringBuilder; - <init> V
Ljava/lang/StringBuilder; - <init> V Ljava/lang/String;
Ljava/lang/StringBuilder; - append Ljava/lang/StringBuilder; Ljava/lang/String;
Ljava/lang/StringBuilder; - append Ljava/lang/StringBuilder; I
Ljava/lang/StringBuilder; - append Ljava/lang/StringBuilder; J
Ljava/lang/StringBuilder; - append Ljava/lang/StringBuilder; C
Ljava/lang/StringBuilder; - append Ljava/lang/StringBuilder; Z
Ljava/lang/StringBuilder; - toString Ljava/lang/String;
Ljava/lang/StringBuilder; - length I
Ljava/io/PrintStream; - println V
Ljava/io/PrintStream; - print V Ljava/lang/String;
Ljava/io/PrintStream; - print V I
Ljava/io/PrintStream; - print V J
Ljava/io/PrintStream; - print V C
Ljava/io/PrintStream; - print V Z
Ljava/io/PrintStream; - println V Ljava/lang/String;
Ljava/io/PrintStream; - println V I
Ljava/io/PrintStream; - println V J
Ljava/io/PrintStream; - println V C
Ljava/io/PrintStream; - println V Z
Ldvm/Text; static+native ofLong Ljava/lang/String; J
Ldvm/Text; static+native ofChars Ljava/lang/String; [C I I
Ldvm/Console; static+native print V Ljava/lang/String;
Ldvm/Console; static+native println V I
Ljava/lang/Throwable; - <init> V
Ljava/lang/Throwable; - <init> V Ljava/lang/String;
Ljava/lang/Throwable; - <init> V Ljava/lang/String; Ljava/lang/Throwable;
Ljava/lang/Throwable; - <init> V Ljava/lang/Throwable;
Ljava/lang/Throwable; - getMessage Ljava/lang/String;
Ljava/lang/Throwable; - getCause Ljava/lang/Throwable;
Ljava/lang/Exception; - <init> V
Ljava/lang/Exception; - <init> V Ljava/lang/String;
Ljava/lang/Exception; - <init> V Ljava/lang/String; Ljava/lang/Throwable;
Ljava/lang/Exception; - <init> V Ljava/lang/Throwable;
Ljava/lang/Error; - <init> V
Ljava/lang/Error; - <init> V Ljava/lang/String;
Ljava/lang/Error; - <init> V Ljava/lang/String; Ljava/lang/Throwable;
Ljava/lang/Error; - <init> V Ljava/lang/Throwable;
Ljava/lang/RuntimeException; - <init> V
Ljava/lang/RuntimeException; - <init> V Ljava/lang/String;
Ljava/lang/RuntimeException; - <init> V Ljava/lang/String; Ljava/lang/Throwable;
Ljava/lang/RuntimeException; - <init> V Ljava/lang/Throwable;
Ljava/lang/InterruptedException; - <init> V
Ljava/lang/InterruptedException; - <init> V Ljava/lang/String;
Ljava/lang/ArithmeticException; - <init> V
Ljava/lang/ArithmeticException; - <init> V Ljava/lang/String;
Ljava/lang/NullPointerException; - <init> V
Ljava/lang/NullPointerException; - <init> V Ljava/lang/String;
Ljava/lang/NegativeArraySizeException; - <init> V
Ljava/lang/NegativeArraySizeException; - <init> V Ljava/lang/String;
Ljava/lang/ClassCastException; - <init> V
Ljava/lang/ClassCastException; - <init> V Ljava/lang/String;
Ljava/lang/ArrayStoreException; - <init> V
Ljava/lang/ArrayStoreException; - <init> V Ljava/lang/String;
Ljava/lang/IllegalMonitorStateException; - <init> V
Ljava/lang/IllegalMonitorStateException; - <init> V Ljava/lang/String;
Ljava/lang/IndexOutOfBoundsException; - <init> V
Ljava/lang/IndexOutOfBoundsException; - <init> V Ljava/lang/String;
Ljava/lang/IllegalArgumentException; - <init> V
Ljava/lang/IllegalArgumentException; - <init> V Ljava/lang/String;
Ljava/lang/ArrayIndexOutOfBoundsException; - <init> V
Ljava/lang/ArrayIndexOutOfBoundsException; - <init> V Ljava/lang/String;
Ljava/lang/IllegalThreadStateException; - <init> V
Ljava/lang/IllegalThreadStateException; - <init> V Ljava/lang/String;
Ljava/lang/LinkageError; - <init> V
Ljava/lang/LinkageError; - <init> V Ljava/lang/String;
Ljava/lang/VirtualMachineError; - <init> V
Ljava/lang/VirtualMachineError; - <init> V Ljava/lang/String;
Ljava/lang/NoClassDefFoundError; - <init> V
Ljava/lang/NoClassDefFoundError; - <init> V Ljava/lang/String;
Ljava/lang/ExceptionInInitializerError; - <init> V
Ljava/lang/ExceptionInInitializerError; - <init> V Ljava/lang/String;
Ljava/lang/ExceptionInInitializerError; - <init> V Ljava/lang/Throwable;
Ljava/lang/IncompatibleClassChangeError; - <init> V
Ljava/lang/IncompatibleClassChangeError; - <init> V Ljava/lang/String;
Ljava/lang/AbstractMethodError; - <init> V
Ljava/lang/AbstractMethodError; - <init> V Ljava/lang/String;
Ljava/lang/OutOfMemoryError; - <init> V
Ljava/lang/OutOfMemoryError; - <init> V Ljava/lang/String;
Ljava/lang/StackOverflowError; - <init> V
Ljava/lang/StackOverflowError; - <init> V Ljava/lang/String;";
