// Laws of the lines of comparisons of numbers, each the contract of a function that does nothing.
ghost use Rattle.c65_agree_order.specs.Laws.{BytesBehindSettle, BytesSettle, CharsAreBytes, CharsAreRead, CharsAreReadBehind, ConstantsAreRead, ConstantsAreReadBehind, ConversionsKeepBytes, ConversionsKeepLows, HeldBytesSettle, HeldPointersSettle, HeldWordsSettle, LongsBehindSettle, LongsSettle, LowConversionLinesAre, LowOperandsDo, LowOperatorLinesAre, NullOrdersBehindSettle, NullOrdersSettle, PointersBehindSettle, PointersSettle, RaisedBytesBehindSettle, RaisedBytesSettle, RaisedLongsBehindSettle, RaisedLongsSettle, RaisedWordsBehindSettle, RaisedWordsSettle, ReadBytesCome, ReadsAreConverted, ReadsBehindAreConverted, StackedPointersSettle, ValuesAreLow, WordsBehindSettle, WordsSettle};

/// The lines of a comparison of AX with a word that is read where it lies test its value, whatever the relation.
pub fn words_settle()
    ensures { WordsSettle }
{}

/// So do those where AX is the right side.
pub fn words_behind_settle()
    ensures { WordsBehindSettle }
{}

/// And those where the left side waits in ptr2.
pub fn held_words_settle()
    ensures { HeldWordsSettle }
{}

/// A number that is read may be taken one greater, where it is not the greatest of its type.
pub fn raised_words_settle()
    ensures { RaisedWordsSettle }
{}

/// So it may where AX is the right side.
pub fn raised_words_behind_settle()
    ensures { RaisedWordsBehindSettle }
{}

/// The lines of a comparison of EAX with a long word that is read where it lies test its value, whatever the relation.
pub fn longs_settle()
    ensures { LongsSettle }
{}

/// So do those where EAX is the right side.
pub fn longs_behind_settle()
    ensures { LongsBehindSettle }
{}

/// A long number that is read may be taken one greater, where it is not the greatest of its type.
pub fn raised_longs_settle()
    ensures { RaisedLongsSettle }
{}

/// So it may where EAX is the right side.
pub fn raised_longs_behind_settle()
    ensures { RaisedLongsBehindSettle }
{}

/// The low byte of a value in its register is in A.
pub fn values_are_low()
    ensures { ValuesAreLow }
{}

/// An unsigned char is a byte.
pub fn chars_are_bytes()
    ensures { CharsAreBytes }
{}

/// A conversion between numbers keeps the low byte.
pub fn conversions_keep_lows()
    ensures { ConversionsKeepLows }
{}

/// It keeps a byte, but where it is to a signed char.
pub fn conversions_keep_bytes()
    ensures { ConversionsKeepBytes }
{}

/// The low byte of a sum, a difference or bits of two words is that of their low bytes.
pub fn low_operands_do()
    ensures { LowOperandsDo }
{}

/// The low byte of an unsigned char is read where that lies.
pub fn chars_are_read()
    ensures { CharsAreRead }
{}

/// It is behind the lines of another value too.
pub fn chars_are_read_behind()
    ensures { CharsAreReadBehind }
{}

/// So it is where the value is converted.
pub fn reads_are_converted()
    ensures { ReadsAreConverted }
{}

/// Behind other lines too.
pub fn reads_behind_are_converted()
    ensures { ReadsBehindAreConverted }
{}

/// A constant from 0 to 255 is such a byte.
pub fn constants_are_read()
    ensures { ConstantsAreRead }
{}

/// It is behind other lines too.
pub fn constants_are_read_behind()
    ensures { ConstantsAreReadBehind }
{}

/// A byte that is read where it lies comes to A.
pub fn read_bytes_come()
    ensures { ReadBytesCome }
{}

/// The lines of a comparison of A with a byte that is read where it lies test its value.
pub fn bytes_settle()
    ensures { BytesSettle }
{}

/// So do those where A is the right side.
pub fn bytes_behind_settle()
    ensures { BytesBehindSettle }
{}

/// And those where the left side waits in the low byte of ptr2.
pub fn held_bytes_settle()
    ensures { HeldBytesSettle }
{}

/// A number that is read may be taken one greater, where it is below 255.
pub fn raised_bytes_settle()
    ensures { RaisedBytesSettle }
{}

/// So it may where A is the right side.
pub fn raised_bytes_behind_settle()
    ensures { RaisedBytesBehindSettle }
{}

/// The lines of a comparison of a pointer in AX with one that is read where it lies test its value.
pub fn pointers_settle()
    ensures { PointersSettle }
{}

/// So do those where AX is the right side.
pub fn pointers_behind_settle()
    ensures { PointersBehindSettle }
{}

/// And those where the left pointer waits in ptr2.
pub fn held_pointers_settle()
    ensures { HeldPointersSettle }
{}

/// And those where it waits on the software stack for a routine.
pub fn stacked_pointers_settle()
    ensures { StackedPointersSettle }
{}

/// An order of a pointer and a null pointer has no meaning.
pub fn null_orders_settle()
    ensures { NullOrdersSettle }
{}

/// Nor has one of a null pointer and a pointer.
pub fn null_orders_behind_settle()
    ensures { NullOrdersBehindSettle }
{}

/// The lines of the low byte of a converted number are those of the number's.
pub fn low_conversion_lines_are()
    ensures { LowConversionLinesAre }
{}

/// Those of an operator's are from the left operand's and the right one's byte.
pub fn low_operator_lines_are()
    ensures { LowOperatorLinesAre }
{}
